//! Readers of blocks of VALUES, each exactly as its rule of `fx_grammar` reads them.
#![tactic(auto)]

mod parts;
mod values;

pub use parts::{inline_values, opt_values};
