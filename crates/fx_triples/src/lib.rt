//! Readers of triples, each exactly as its rule of `fx_grammar` reads them.
#![tactic(auto)]

mod parts;
mod subjects;

pub use parts::{behind_other, first_triples};
