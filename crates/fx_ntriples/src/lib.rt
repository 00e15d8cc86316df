//! N-Triples (RDF 1.1 N-Triples), read and written.
//!
//! A document is read to the graph that it is, or refused with the place of the first thing that is wrong; a graph is
//! written so that it is read again.
#![tactic(auto)]

mod faults;
mod lines;
mod printing;
mod quotes;
mod reading;

pub use faults::NtError;
use fx_terms::shareable;
pub use printing::print_graph;
pub use reading::read_graph;

/// Every type of this crate may be shared between threads and sent to them.
pub fn all_shareable() {
    shareable::<NtError>();
}
