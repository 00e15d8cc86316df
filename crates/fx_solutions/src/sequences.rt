//! The rows of an answer, in their order.
ghost use Rattle.std.specs.Prelude.{◌≡◌, map, All, IfOk, IsTrue};
ghost use Rattle.std.specs.Option.{option_copied};
ghost use Rattle.fx_algebra.specs.Solutions.{rises};
ghost use Rattle.fx_algebra.specs.Sequences.{projected, cell_cmp, row_cmp, ordered as ordered_of};

use fx_algebra::Solution;
use fx_terms::{Memory, Name, Term};
use std::alloc::Global;
use std::cmp::Ordering;

/// The rows, projected to columns, in the order of their columns' terms: an unbound cell comes before a bound one, and equal
/// rows stay as often as they stand.
pub fn ordered(alloc: Global, columns: &[Name], rows: &[Solution]) -> Result<Vec<Solution>, Memory>
    ensures { IfOk result (λ v. v.items ≡ ordered_of columns.now rows.now) }
{
    let mut projected = project(alloc, columns, rows)?;
    projected.sort_by(|left, right| compare_rows(columns, left, right))?;
    Ok(projected)
}

fn project(alloc: Global, columns: &[Name], rows: &[Solution]) -> Result<Vec<Solution>, Memory>
    ensures projected { IfOk result (λ parts. parts.items ≡ map (projected columns.now) rows.now) }
    ensures rise { IfOk result (λ _. All (λ s. IsTrue (rises s)) rows.now) }
{
    let mut parts = Vec::with_capacity(alloc, rows.len())?;
    for row in rows {
        parts.push(row.project(alloc, columns)?)?;
    }
    Ok(parts)
}

pub(crate) fn compare_rows(columns: &[Name], left: &Solution, right: &Solution) -> Ordering
    ensures { result ≡ row_cmp columns.now left.now right.now }
{
    for column in columns {
        let order = compare_cells(left.get(column), right.get(column));
        if order != Ordering::Equal {
            return order;
        }
    }
    Ordering::Equal
}

pub(crate) fn compare_cells(left: Option<&Term>, right: Option<&Term>) -> Ordering
    ensures { result ≡ cell_cmp (option_copied left.entry) (option_copied right.entry) }
{
    match left {
        None => match right {
            None => Ordering::Equal,
            Some(_) => Ordering::Less,
        },
        Some(x) => match right {
            None => Ordering::Greater,
            Some(y) => x.compare(y),
        },
    }
}
