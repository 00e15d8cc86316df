//! Queries, solutions and answers, and the definitions of what a query means.
#![tactic(auto)]

pub mod answers;
pub mod expressions;
pub mod groups;
pub mod keys;
pub mod laws;
pub mod occurrences;
pub mod plain;
pub mod queries;
pub mod scopes;
pub mod solutions;
pub mod units;
pub mod worths;

pub use answers::Answer;
pub use expressions::{Compare, Expr, Function, Sign};
use fx_terms::shareable;
pub use groups::patterns_of;
pub use keys::Keyed;
pub use occurrences::services;
pub use plain::is_plain;
pub use queries::{Element, Form, Group, Inline, Order, Query};
pub use scopes::scope;
pub use solutions::Solution;
pub use units::{Row, Unit};
pub use worths::{IntegerType, Kind, Worth};

/// Every type of this crate may be shared between threads and sent to them.
pub fn all_shareable() {
    shareable::<Answer>();
    shareable::<Compare>();
    shareable::<Expr>();
    shareable::<Function>();
    shareable::<Sign>();
    shareable::<Element>();
    shareable::<Form>();
    shareable::<Group>();
    shareable::<Inline>();
    shareable::<Order>();
    shareable::<Query>();
    shareable::<Solution>();
    shareable::<Row>();
    shareable::<Unit>();
    shareable::<Keyed>();
    are_worths_shareable();
}

// What literals are worth, in a function of its own, since the search of so many types in one meets a limit.
fn are_worths_shareable() {
    shareable::<IntegerType>();
    shareable::<Kind>();
    shareable::<Worth>();
}
