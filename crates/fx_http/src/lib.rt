//! HTTP/1.1, as far as the SPARQL 1.1 Protocol's query operation needs it: requests to endpoints, and their replies.
#![tactic(auto)]

mod chunks;
mod fields;
mod forms;
mod heads;
pub mod read_requests;
mod reading;
pub mod replies;
mod request_heads;
mod request_parts;
pub mod requests;
mod slices;
pub mod written_replies;

use fx_terms::shareable;
pub use read_requests::{Asked, RequestError, read_request};
pub use replies::{Reply, ReplyError, read_reply};
pub use requests::request_bytes;
pub use written_replies::reply_bytes;

/// Every type of this crate may be shared between threads and sent to them.
pub fn all_shareable() {
    shareable::<Asked>();
    shareable::<RequestError>();
    shareable::<Reply>();
    shareable::<ReplyError>();
}
