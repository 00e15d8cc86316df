//! Turtle (RDF 1.1 Turtle, in this project's profile): a document is read to the graph that it is, or refused with its reason and its place.
//!
//! The grammar stands in `specs/Grammar.antt`, a rule for each production, made in the ways of `fx_rules`, over the symbols that tokens say
//! (`specs/Symbols.antt`). The documents, the refusals and their laws stand in `specs/Documents.antt`, and worked examples of both in
//! `specs/Examples.antt`; that what N-Triples prints is Turtle too, in `specs/Printed.antt`. Blank nodes, collections, base and relative IRIs aren't of the profile.
#![tactic(auto)]

mod faults;
pub mod kinds;
pub mod laws;
mod literals;
mod looks;
mod names;
mod objects;
mod prefixes;
mod reading;
pub mod refusals;
mod sources;
mod statements;
mod triples;
mod windows;

pub use kinds::Kind;
pub use reading::read_turtle;
pub use refusals::{TurtleError, TurtleKind};
