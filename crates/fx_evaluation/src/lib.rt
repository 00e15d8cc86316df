//! The answer of a query over one graph, whose occurrences of SERVICE are down.
#![tactic(auto)]

pub mod answering;
mod conditions;
mod estimates;
mod first_rows;
pub mod groups;
mod known;
mod optionals;
mod places;
mod runs;

pub use answering::{MemberError, answer};
use fx_terms::shareable;

/// Every type of this crate may be shared between threads and sent to them.
pub fn all_shareable() {
    shareable::<MemberError>();
}
