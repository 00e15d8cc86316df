//! Plans: the units that a run of triple patterns is asked for by, in their order, and the text of plans.
#![tactic(auto)]

mod conditions;
pub mod laws;
mod names;
mod orders;
mod parts;
mod plans;
mod positions;
mod shares;

use fx_terms::shareable;
pub use parts::{Part, explain};
pub use plans::units;

/// Every type of this crate may be shared between threads and sent to them.
pub fn all_shareable() {
    shareable::<Part>();
}
