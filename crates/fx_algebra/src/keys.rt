//! Rows with their keys (SPARQL 1.1 section 15.1), as far as the definitions speak of them.

use crate::solutions::Solution;
use fx_terms::{Items, Term};

/// The keys of a row, and the projected row.
#[derive(Drop)]
pub struct Keyed {
    pub keys: Items<Option<Term>>,
    pub row: Solution,
}
