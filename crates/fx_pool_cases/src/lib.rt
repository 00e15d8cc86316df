//! The cases of calls over wires: what comes of jobs, and the rows behind the units of a run, and of several.
#![tactic(auto)]

mod checks;
mod faults;
mod flows;
pub mod jobs;
mod sides;
