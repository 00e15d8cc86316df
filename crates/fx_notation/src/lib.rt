//! Values from the fields of a table, and as texts, for the crates of cases.
#![tactic(auto)]

pub mod escapes;
pub mod fields;
pub mod notation;
pub mod shown;
