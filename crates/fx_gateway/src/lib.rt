//! A federation as an endpoint: a request is answered by what the members of a registry give.
#![tactic(auto)]

pub mod connections;
pub mod laws;
mod replies;
mod requests;
pub mod serving;

pub use connections::{GateError, Gated, GatedReply};
pub use serving::{gated_reply, gated_reply_by, serve_connection, serve_connection_by};
