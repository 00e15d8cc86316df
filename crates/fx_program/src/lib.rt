//! The program over files, wires, a door and streams that are handed in: `run` does the command that its words are. The theorem is its contract.
#![tactic(auto)]

pub mod running;

pub use running::run;
