//! The grammar of queries (SPARQL 1.1 section 19.8, in this project's profile).
//!
//! It stands in `specs/Grammar.antt`, a rule for each production, which says what tokens spell, what stops them and how they are read;
//! the ways to make a rule are those of `fx_rules`, over the alphabet in `specs/Rule.antt`. Which text is which query stands in `specs/Accepted.antt`, and why a text is
//! refused, and where, in `specs/Refused.antt`. The types are those of which the definitions speak.
#![tactic(auto)]

pub mod kinds;
pub mod laws;
pub mod parts;
pub mod places;
pub mod refusals;

pub use kinds::{Kind, Text, Token, is};
pub use parts::{Annotation, Head, Limits, Main, Modifiers, Relative};
pub use places::{Context, Service};
pub use refusals::{SyntaxError, SyntaxKind};
