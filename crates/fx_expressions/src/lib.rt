//! Readers of expressions and of constraints, each exactly as its rule of `fx_grammar` reads them.
#![tactic(auto)]

mod constraints;
mod expressions;

pub use constraints::{constraint, sees_constraint, whole_expression, whole_parens};
pub use expressions::variable_expression;
