//! Wires to endpoints: what an exchange of a request for a reply promises, wires that answer by a script, and wires over TCP.
#![tactic(auto)]

pub mod script_wires;
pub mod tcp_wires;
pub mod wires;

use fx_terms::shareable;
pub use script_wires::ScriptWire;
pub use tcp_wires::TcpWire;
pub use wires::{Wire, WireError};

/// Every type of this crate may be shared between threads and sent to them; a wire over TCP may where its runtime may.
pub fn all_shareable<R: Send + Sync>() {
    shareable::<WireError>();
    shareable::<ScriptWire>();
    shareable::<TcpWire<R>>();
}
