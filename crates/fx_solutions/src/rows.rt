//! Operators that look at one row at a time.
ghost use Rattle.std.specs.Prelude.{◌≡◌, IfOk};
ghost use Rattle.std.specs.Option.{option_copied};
ghost use Rattle.fx_algebra.specs.Solutions.{with_new as with_new_pair};
ghost use Rattle.fx_algebra.specs.Operators as spec;

use crate::joins::copy_rows;
use fx_algebra::{Expr, Inline, Solution};
use fx_expr::{holds, value};
use fx_terms::{Memory, Name, Term};
use std::alloc::Global;

/// The rows of both lists (SPARQL 1.1 section 18.5, Union), those of the left first.
pub fn union(alloc: Global, left: &[Solution], right: &[Solution]) -> Result<Vec<Solution>, Memory>
    ensures { IfOk result (λ rows. rows.items ≡ spec.union left.now right.now) }
{
    let mut rows = copy_rows(alloc, left)?;
    let mut more = copy_rows(alloc, right)?;
    rows.append(&mut more)?;
    Ok(rows)
}

/// The rows on which every condition holds (section 18.5, Filter): an error removes the row. No row is copied.
pub fn filter(
    alloc: Global,
    rows: Vec<Solution>,
    conditions: &[Expr],
) -> Result<Vec<Solution>, Memory>
    ensures { IfOk result (λ kept. kept.items ≡ spec.filtered conditions.now rows.items) }
{
    if conditions.is_empty() {
        return Ok(rows);
    }
    let mut kept = Vec::new(alloc);
    for row in rows {
        if holds(alloc, conditions, &row)? {
            kept.push(row)?;
        }
    }
    Ok(kept)
}

/// Each row with the value that an expression has on it under a name (section 18.5, Extend): an error leaves the name unbound.
/// Where a row binds the name, it stays as it is.
pub fn extend(
    alloc: Global,
    rows: &[Solution],
    name: &Name,
    expr: &Expr,
) -> Result<Vec<Solution>, Memory>
    ensures { IfOk result (λ extended. extended.items ≡ spec.extend rows.now name.now expr.now) }
{
    let mut extended = Vec::with_capacity(alloc, rows.len())?;
    for row in rows {
        extended.push(extended_row(alloc, row, name, expr)?)?;
    }
    Ok(extended)
}

#[tactic(auto, unfolding(fx_algebra::specs::Operators::extended))]
fn extended_row(alloc: Global, row: &Solution, name: &Name, expr: &Expr) -> Result<Solution, Memory>
    ensures { IfOk result (λ s. s ≡ spec.extended name.now expr.now row.now) }
{
    let found = value(alloc, expr, row)?;
    with_value(alloc, row, name, found.as_ref())
}

/// The rows of a block of solutions that are written out (section 10.2): each cell that is not UNDEF binds its column. A column
/// that stands twice has its first term.
pub fn inline_rows(alloc: Global, inline: &Inline) -> Result<Vec<Solution>, Memory>
    ensures { IfOk result (λ rows. rows.items ≡ spec.inline_rows inline.now) }
{
    let columns = inline.columns.as_slice();
    let mut rows = Vec::new(alloc);
    for row in inline.rows.as_slice() {
        rows.push(inline_row(alloc, columns, row.as_slice())?)?;
    }
    Ok(rows)
}

fn inline_row(alloc: Global, columns: &[Name], row: &[Option<Term>]) -> Result<Solution, Memory>
    ensures { IfOk result (λ s. s ≡ spec.inline_row columns.now row.now) }
{
    let mut solution = Solution::empty(alloc);
    let count = columns.len().min(row.len());
    for i in 0..count {
        solution = with_value(alloc, &solution, &columns[i], row[i].as_ref())?;
    }
    Ok(solution)
}

// The row with a value under a name, where there is a value and the name has none.
fn with_value(
    alloc: Global,
    row: &Solution,
    name: &Name,
    value: Option<&Term>,
) -> Result<Solution, Memory>
    ensures { IfOk result (λ s. s ≡ spec.with_value row.now name.now (option_copied value.entry)) }
{
    match value {
        Some(term) => with_new(alloc, row, name, term),
        None => row.copy(alloc),
    }
}

fn with_new(alloc: Global, row: &Solution, name: &Name, term: &Term) -> Result<Solution, Memory>
    ensures { IfOk result (λ s. s ≡ with_new_pair row.now (name.now, term.now)) }
{
    match row.get(name) {
        Some(_) => row.copy(alloc),
        None => row.with(alloc, name, term),
    }
}
