//! The query that a text is (SPARQL 1.1 section 19.8, in this project's profile).
//!
//! `parse` reads a text exactly where it is accepted by the grammar of `fx_grammar`, and else refuses it with its reason at its place.
#![tactic(auto)]

mod elements;
mod orders;
mod parsing;
mod queries;

pub use fx_grammar::{SyntaxError, SyntaxKind};
pub use parsing::parse;
