//! The mediator's requests made over one wire, one after another, without threads.
#![tactic(auto)]

mod batches;
pub mod hands;
mod jobs;
mod runs;

pub use hands::Alone;
