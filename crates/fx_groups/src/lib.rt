//! Readers of groups, each exactly as its rule of `fx_grammar` reads them.
#![tactic(auto)]

mod elements;
mod groups;

pub use elements::ReadsElements;
pub use groups::group;
