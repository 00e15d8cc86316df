//! Several runs asked for over wires side by side, step by step.
#![tactic(auto)]

mod choices;
pub mod doing;
pub mod runs;
mod steps;

pub use doing::DoesFlows;
pub use runs::run_side_by_side;
