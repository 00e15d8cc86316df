//! Answers as JSON documents (SPARQL 1.1 Query Results JSON Format).
#![tactic(auto)]

mod bindings;
mod columns;
mod documents;
mod faults;
pub mod laws;
mod reading;
mod terms;
mod values;

pub use documents::write;
pub use faults::{ResultsError, ShapeFault};
use fx_terms::shareable;
pub use reading::read;

/// Every type of this crate may be shared between threads and sent to them.
pub fn all_shareable() {
    shareable::<ResultsError>();
    shareable::<ShapeFault>();
}
