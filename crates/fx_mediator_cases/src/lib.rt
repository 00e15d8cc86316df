//! The calls of the mediator over several wires, at the fields of a case: over members that answer by a script, and over such that answer by their graphs.
#![tactic(auto)]

mod calls;
pub mod engine;
pub mod gateways;
pub mod mediations;
