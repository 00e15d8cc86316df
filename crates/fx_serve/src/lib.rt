//! The command `serve`, over files, wires, a door and a stream that are handed in.
#![tactic(auto)]

pub mod laws;
pub mod serving;

pub use serving::{Serve, run_serve};
