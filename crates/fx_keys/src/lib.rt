//! The keys of ASKs, and probes: a member that is asked whether a key fits its graph.
#![tactic(auto)]

pub mod keys;
pub mod probes;

use fx_terms::shareable;
pub use keys::AskKey;
pub use probes::Probe;

/// Every type of this crate may be shared between threads and sent to them.
pub fn all_shareable() {
    shareable::<AskKey>();
    shareable::<Probe>();
}
