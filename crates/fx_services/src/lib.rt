//! Occurrences of SERVICE, plain and silent: what is asked for, over which wires, and what comes of it.
#![tactic(auto)]

pub mod beside;
pub mod doing;
pub mod noted;
pub mod services;

pub use beside::{Occurrence, Settled, ask_services, settle};
pub use doing::DoesJobs;
use fx_terms::shareable;
pub use noted::{Down, DownCause};
pub use services::ServiceError;

/// Every type of this crate may be shared between threads and sent to them.
pub fn all_shareable() {
    shareable::<Down>();
    shareable::<DownCause>();
    shareable::<ServiceError>();
    shareable::<Settled>();
}
