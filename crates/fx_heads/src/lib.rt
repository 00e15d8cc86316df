//! Readers of what stands before a query's group, and of LIMIT and OFFSET, each exactly as its rule of `fx_grammar` reads them.
#![tactic(auto)]

mod heads;

pub use heads::{opt_limits, prologue, query_head};
