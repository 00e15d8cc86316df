//! The store: a graph, in which the triples that fit a pattern are found.
#![tactic(auto)]

mod evaluation;
mod finding;
mod lookups;
pub mod orders;
mod ranks;
pub mod stores;

use fx_terms::shareable;
pub use orders::{Orders, Steps};
pub use stores::Store;

/// Every type of this crate may be shared between threads and sent to them.
pub fn all_shareable() {
    shareable::<Store>();
    shareable::<Orders>();
}
