//! The rows of a run's units, asked for in batches, unit by unit: in rounds of teams of wires, or by workers that share the batches.
#![tactic(auto)]

mod cutting;
mod flowing;
pub mod flows;
mod following;
mod forms;
mod gates;
pub mod laws;
pub mod lines;
pub mod parcels;
pub mod steps;
mod teams;

pub use flows::{FlowError, run_flow, run_rows};
use fx_terms::shareable;
use parcels::{Parcel, RunShape};

/// Every type of this crate may be shared between threads and sent to them.
pub fn all_shareable() {
    shareable::<FlowError>();
    shareable::<RunShape>();
    shareable::<Parcel>();
}
