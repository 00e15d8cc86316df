//! The rows of an answer under ORDER BY.
ghost use Rattle.std.specs.Prelude.{◌≡◌, IfOk};
ghost use Rattle.fx_algebra.specs.OrderedRows as spec;

use crate::ranked_rows::{project_ranked, ranked_in_order};
use fx_algebra::{Order, Solution};
use fx_terms::{Memory, Name};
use std::alloc::Global;

/// The rows, projected to columns, in the order of keys (SPARQL 1.1 section 15.1): an error and an unbound variable come first,
/// and `DESC` turns the order of its key round. Keys are those of the whole row. Rows that the keys leave equal come in the order
/// of their columns' terms, and equal rows stay as often as they stand.
pub fn in_order(
    alloc: Global,
    orders: &[Order],
    columns: &[Name],
    rows: &[Solution],
) -> Result<Vec<Solution>, Memory>
    ensures { IfOk result (λ v. v.items ≡ spec.in_order orders.now columns.now rows.now) }
{
    let ranked = ranked_in_order(alloc, orders, columns, rows)?;
    project_ranked(alloc, columns, ranked.as_slice())
}
