//! A federation as a wire, so that it can be a member of another.
#![tactic(auto)]

pub mod gates;
pub mod laws;
mod replies;

pub use gates::GateWire;
