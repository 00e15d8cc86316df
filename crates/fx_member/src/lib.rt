//! The member: the reply to a request, and wires in memory that answer by it.
#![tactic(auto)]

pub mod fault_wires;
pub mod graph_wires;
pub mod serving;

pub use fault_wires::FaultWire;
pub use fx_evaluation::{MemberError, answer};
use fx_terms::shareable;
pub use graph_wires::GraphWire;
pub use serving::{ServeError, Served, serve_one};

/// Every type of this crate may be shared between threads and sent to them.
pub fn all_shareable() {
    shareable::<GraphWire>();
    shareable::<FaultWire>();
    shareable::<Served>();
    shareable::<ServeError>();
}
