//! The operators of the algebra on lists of solutions (SPARQL 1.1 section 18.5), and the order of an answer's rows.
#![tactic(auto)]

mod distinct_rows;
pub mod joins;
pub mod known_rows;
pub mod laws;
pub mod left_joins;
pub mod ordered_rows;
mod ranked_rows;
pub mod rows;
pub mod selections;
pub mod sequences;
pub mod subtractions;
pub mod tables;

pub use joins::{join, join_with};
pub use left_joins::{left_join, left_join_with, or_itself};
pub use ordered_rows::in_order;
pub use rows::{extend, filter, inline_rows, union};
pub use selections::sequence;
pub use sequences::ordered;
pub use subtractions::{minus, minus_with};
pub use tables::answer_of_rows;
