//! The rows of an OPTIONAL whose group is one run.
ghost use Rattle.std.specs.Prelude.{◌≡◌, ◌<◌, ◌++◌, IfOk, OnOk, length, map};
ghost use Rattle.std.specs.List.{flat_map};
ghost use Rattle.fx_algebra.specs.Operators.{or_itself};
ghost use Rattle.fx_steps.specs.Optionals.{optional_rows};
ghost use Rattle.fx_walks.specs.LeftRows as spec;

use fx_algebra::{Expr, Row, Solution};
use fx_expr::holds;
use fx_terms::Memory;
use std::alloc::Global;

// A row of the left, with what was found under its number.
#[derive(Drop)]
struct LeftRow {
    row: Solution,
    found: Vec<Solution>,
}

/// For each row of the left, numbered from 0, what was found under its number on which the conditions hold, or the row itself where there
/// is none. No row is copied.
pub fn or_themselves(
    alloc: Global,
    left: Vec<Solution>,
    found: Vec<Row>,
    conditions: &[Expr],
) -> Result<Vec<Solution>, Memory>
    ensures { IfOk result (λ rows. rows.items ≡ optional_rows conditions.now 0 left.items found.items) }
{
    let rows = found_for(alloc, left, found, conditions)?;
    all_of(alloc, rows)
}

// Each row of the left with what was found for it on which the conditions hold.
fn found_for(
    alloc: Global,
    left: Vec<Solution>,
    found: Vec<Row>,
    conditions: &[Expr],
) -> Result<Vec<LeftRow>, Memory>
    ensures { IfOk result (λ rows. map spec.pair_of rows.items ≡ spec.kept conditions.now 0 left.items found.items) }
{
    let mut rows = alone(alloc, left)?;
    for row in found {
        if holds(alloc, conditions, &row.solution)? {
            put(&mut rows, row)?;
        }
    }
    Ok(rows)
}

// Each row with nothing found for it.
fn alone(alloc: Global, left: Vec<Solution>) -> Result<Vec<LeftRow>, Memory>
    ensures { IfOk result (λ rows. map spec.pair_of rows.items ≡ map spec.with_none left.items) }
{
    let mut rows = Vec::with_capacity(alloc, left.len())?;
    for row in left {
        let found = Vec::new(alloc);
        rows.push(LeftRow { row, found })?;
    }
    Ok(rows)
}

// Puts the solution of a row behind what was found for the row of the left that has its number, if there is one.
fn put(rows: &mut Vec<LeftRow>, row: Row) -> Result<(), Memory>
    ensures { OnOk result (map spec.pair_of rows.new.items ≡ spec.with_found row.solution row.origin (map spec.pair_of rows.old.items)) }
{
    let Row { origin, solution } = row;
    let at = origin as usize;
    if at < rows.len() {
        put_at(rows, at, solution)
    } else {
        Ok(())
    }
}

fn put_at(rows: &mut Vec<LeftRow>, at: usize, solution: Solution) -> Result<(), Memory>
    requires { at < length rows.old.items }
    ensures { OnOk result (map spec.pair_of rows.new.items ≡ spec.with_found solution at (map spec.pair_of rows.old.items)) }
{
    rows[at].found.push(solution)?;
    Ok(())
}

// What was found for each row, or the row itself, one after the other.
fn all_of(alloc: Global, rows: Vec<LeftRow>) -> Result<Vec<Solution>, Memory>
    ensures { IfOk result (λ all. all.items ≡ flat_map spec.rows_of (map spec.pair_of rows.items)) }
{
    let mut all = Vec::new(alloc);
    for row in rows {
        add(&mut all, row)?;
    }
    Ok(all)
}

fn add(all: &mut Vec<Solution>, row: LeftRow) -> Result<(), Memory>
    ensures { OnOk result (all.new.items ≡ all.old.items ++ or_itself row.row row.found.items) }
{
    let LeftRow { row, found } = row;
    let mut found = found;
    if found.is_empty() {
        all.push(row)?;
    } else {
        all.append(&mut found)?;
    }
    Ok(())
}
