//! Expressions: the value of an expression on a solution, and the truth of a term (SPARQL 1.1 section 17).
#![tactic(auto)]

mod conditions;
mod integers;
mod keys;
mod texts;
mod values;
mod words;
mod worths;

pub use conditions::holds;
pub use keys::{Key, compare_keys};
pub use values::value;
pub use worths::truth;
