//! Which queries can be spelled: the printed text of a query is accepted as that query.
//!
//! What the words of a printed query say, and which queries the grammar has, stands in `specs/Printable.antt`.
#![tactic(auto)]

pub mod laws;
