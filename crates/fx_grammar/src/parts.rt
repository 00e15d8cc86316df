//! Parts of a query that are read before the tree is made that they belong to.

use crate::kinds::Text;
use fx_algebra::{Compare, Expr, Group, Order};
use fx_terms::{Boxed, Iri, Items, Name};

/// What stands behind a text that is a literal's form.
#[derive(Drop)]
pub enum Annotation {
    Tag(Text),
    Datatype(Iri),
}

/// What stands behind the sum that is the first part of a relation.
#[derive(Drop)]
pub enum Relative {
    Compared { op: Compare, right: Boxed<Expr> },
    Among { negated: bool, list: Items<Expr> },
}

/// What a query asks for.
#[derive(Drop)]
pub enum Head {
    /// These columns, or `*` for all.
    Select {
        distinct: bool,
        columns: Option<Items<Name>>,
    },
    Ask,
}

/// How many rows are kept, and how many are dropped before them, where it is said.
#[derive(Clone, Copy)]
pub struct Limits {
    pub limit: Option<u64>,
    pub offset: Option<u64>,
}

/// What stands behind the group of a query.
#[derive(Drop)]
pub struct Modifiers {
    pub order: Items<Order>,
    pub limits: Limits,
}

/// A query but for its prefixes and the VALUES behind it.
#[derive(Drop)]
pub struct Main {
    pub head: Head,
    pub group: Group,
    pub modifiers: Modifiers,
}
