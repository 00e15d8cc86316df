//! Left joins.
ghost use Rattle.std.specs.Prelude.{◌≡◌, ◌++◌, IfOk, IsPermutation, OnOk};
ghost use Rattle.std.specs.List.Sorted.{IsSortedBy};
ghost use Rattle.std.specs.Ordering.{is_lt};
ghost use Rattle.fx_algebra.specs.Sequences.{row_cmp};
ghost use Rattle.fx_solutions.specs.Joins.{matched};
ghost use Rattle.fx_algebra.specs.Operators as spec;

use crate::joins::{by_terms, copy_rows, shared_names, with_terms};
use fx_algebra::{Expr, Solution};
use fx_expr::holds;
use fx_terms::{Memory, Name};
use std::alloc::Global;

/// The left join of two lists of rows under conditions, in some order (SPARQL 1.1 section 18.5, LeftJoin): the merge of each row
/// of the left with each row of the right that agrees with it, where the conditions hold on the merge, and each row of the left
/// that has no such merge.
///
/// As in `join`, the rows of the right that may agree are found by halves.
pub fn left_join(
    alloc: Global,
    left: &[Solution],
    right: &[Solution],
    conditions: &[Expr],
) -> Result<Vec<Solution>, Memory>
    ensures { IfOk result (λ rows. IsPermutation (spec.left_join left.now right.now conditions.now) rows.items) }
{
    let left = copy_rows(alloc, left)?;
    left_join_with(alloc, left, copy_rows(alloc, right)?, conditions)
}

/// The left join, as `left_join` gives it, with rows that are handed over: no row is copied.
pub fn left_join_with(
    alloc: Global,
    left: Vec<Solution>,
    right: Vec<Solution>,
    conditions: &[Expr],
) -> Result<Vec<Solution>, Memory>
    ensures { IfOk result (λ rows. IsPermutation (spec.left_join left.items right.items conditions.now) rows.items) }
{
    let shared = shared_names(alloc, left.as_slice(), right.as_slice())?;
    let index = by_terms(shared.as_slice(), right)?;
    match_all(alloc, left, index.as_slice(), shared.as_slice(), conditions)
}

// Each row of the left with its matches among the sorted rows that have its terms under the shared names, or itself.
fn match_all(
    alloc: Global,
    left: Vec<Solution>,
    index: &[Solution],
    shared: &[Name],
    conditions: &[Expr],
) -> Result<Vec<Solution>, Memory>
    requires { IsSortedBy (λ a b. is_lt (row_cmp shared.now a b)) index.now }
    ensures { IfOk result (λ rows. rows.items ≡ matched conditions.now shared.now index.now left.items) }
{
    let mut rows = Vec::new(alloc);
    for row in left {
        let others = with_terms(index, shared, &row);
        add_matches(alloc, &mut rows, row, others, conditions)?;
    }
    Ok(rows)
}

// Adds a row's matches among others, or the row itself where there are none.
#[tactic(auto, unfolding(fx_algebra::specs::Operators::matches_or_itself))]
fn add_matches(
    alloc: Global,
    rows: &mut Vec<Solution>,
    row: Solution,
    others: &[Solution],
    conditions: &[Expr],
) -> Result<(), Memory>
    ensures { OnOk result (rows.new.items ≡ rows.old.items ++ spec.matches_or_itself conditions.now others.now row) }
{
    let found = matches(alloc, &row, others, conditions)?;
    let mut found = or_itself(row, found)?;
    rows.append(&mut found)?;
    Ok(())
}

// What a row and the others that agree with it merge to, where the conditions hold.
fn matches(
    alloc: Global,
    row: &Solution,
    others: &[Solution],
    conditions: &[Expr],
) -> Result<Vec<Solution>, Memory>
    ensures { IfOk result (λ found. found.items ≡ spec.matches conditions.now others.now row.now) }
{
    let mut found = Vec::new(alloc);
    for other in others {
        if row.agrees(other) {
            let both = row.merge(alloc, other)?;
            if holds(alloc, conditions, &both)? {
                found.push(both)?;
            }
        }
    }
    Ok(found)
}

/// What was found for a row, or the row itself where that is nothing.
pub fn or_itself(row: Solution, found: Vec<Solution>) -> Result<Vec<Solution>, Memory>
    ensures { IfOk result (λ rows. rows.items ≡ spec.or_itself row found.items) }
{
    let mut found = found;
    if found.is_empty() {
        found.push(row)?;
    }
    Ok(found)
}
