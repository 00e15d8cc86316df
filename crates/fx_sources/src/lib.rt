//! The registry of the endpoints that a query is answered over, and which of them each triple pattern of a query is asked of.
//!
//! A registry is a text of lines that end with LF or CR LF, the last one optionally without. Spaces and tabs at the ends of
//! a line are dropped. An empty line, or one that begins with `#`, is passed over. Any other line is a name, spaces or tabs,
//! and a URL.
#![tactic(auto)]

mod addresses;
pub mod asks;
pub mod caches;
pub mod choices;
mod entries;
pub mod errors;
pub mod laws;
mod lines;
pub mod patterns;
pub mod registries;
mod searches;
mod words;

pub use asks::ask_text;
pub use caches::AskCache;
pub use choices::{Sources, choose, choose_of_kept, missing, missing_of_kept};
pub use errors::RegistryError;
pub use fx_keys::{AskKey, Probe};
use fx_terms::shareable;
pub use registries::Registry;

/// Every type of this crate may be shared between threads and sent to them.
pub fn all_shareable() {
    shareable::<AskCache>();
    shareable::<Registry>();
    shareable::<RegistryError>();
    shareable::<Sources>();
}
