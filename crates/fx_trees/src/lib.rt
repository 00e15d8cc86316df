//! Trees of queries, made of their parts as the grammar makes them: expressions, triples, elements and queries; and sets of names.
#![tactic(auto)]

pub mod elements;
pub mod expressions;
pub mod names;
pub mod patterns;
pub mod queries;
