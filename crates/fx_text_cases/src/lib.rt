//! The cases of what is read and written as text and of the algebra: terms, graphs, tokens, queries, documents, expressions and
//! operators.
#![tactic(auto)]

pub mod algebra;
pub mod expressions;
pub mod ntriples;
pub mod print;
pub mod results;
pub mod solutions;
pub mod syntax;
pub mod terms;
pub mod tokens;
