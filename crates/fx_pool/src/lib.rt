//! Jobs for endpoints, done over wires.
#![tactic(auto)]

pub mod claims;
pub mod faults;
pub mod jobs;
pub mod laws;
mod ordering;
pub mod posting;
pub mod reading;
pub mod running;
mod sharing;
pub mod tasks;
mod working;

pub use faults::ReplyFault;
use fx_terms::shareable;
pub use jobs::{BadReply, Job, JobKind, JobReply, RequestText, Work};
pub use running::run_jobs;

/// Every type of this crate may be shared between threads and sent to them.
pub fn all_shareable() {
    shareable::<RequestText>();
    share_works();
    share_jobs();
    shareable::<JobKind>();
    shareable::<JobReply>();
    shareable::<BadReply>();
    shareable::<ReplyFault>();
}

// The search for this ends only where it is asked for by itself.
fn share_works() {
    shareable::<Work>();
}

// So it is of this.
fn share_jobs() {
    shareable::<Job>();
}
