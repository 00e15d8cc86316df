//! Terms, triples, patterns and graphs of RDF: the values that everything else speaks of.
//!
//! Texts are shared: a copy of a term or a name takes no memory for its text.
#![tactic(auto)]

pub mod allocation;
pub mod blanks;
pub mod datatypes;
pub mod escapes;
pub mod graphs;
pub mod iris;
pub mod literals;
pub mod names;
pub mod patterns;
pub mod recent;
pub mod terms;
pub mod triples;
pub mod utf8;
pub mod writing;

pub use allocation::Memory;
pub use graphs::Graph;
pub use iris::{Iri, TermError};
pub use literals::{Literal, LiteralError, is_tag};
pub use names::{Name, NameError};
pub use patterns::{Pattern, PatternTerm};
pub use recent::RecentIris;
pub use sqlite_items::{Boxed, Items};
pub use terms::Term;
pub use triples::Triple;
pub use utf8::read_utf8;
pub use writing::{write_iri, write_term};

/// A call of this shows that a type may be shared between threads and sent to them.
pub fn shareable<T: Send + Sync>() {}

/// Every type of this crate may be shared between threads and sent to them.
pub fn all_shareable() {
    shareable::<Memory>();
    shareable::<Iri>();
    shareable::<TermError>();
    shareable::<Literal>();
    shareable::<LiteralError>();
    shareable::<Name>();
    shareable::<NameError>();
    shareable::<Term>();
    shareable::<Triple>();
    shareable::<PatternTerm>();
    shareable::<Pattern>();
    shareable::<Graph>();
}
