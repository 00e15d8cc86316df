//! MINUS.
ghost use Rattle.std.specs.Prelude.{◌≡◌, IfOk};
ghost use Rattle.std.specs.List.Sorted.{IsSortedBy};
ghost use Rattle.std.specs.Ordering.{is_lt};
ghost use Rattle.fx_algebra.specs.Sequences.{row_cmp};
ghost use Rattle.fx_solutions.specs.Joins.{kept};
ghost use Rattle.fx_algebra.specs.Operators as spec;

use crate::joins::{by_terms, copy_rows, shared_names, with_terms};
use fx_algebra::Solution;
use fx_terms::{Memory, Name};
use std::alloc::Global;

/// The rows of the left without those that agree with a row of the right with which they share a variable (SPARQL 1.1 section
/// 18.5, Minus).
///
/// As in `join`, the rows of the right that may agree are found by halves.
pub fn minus(alloc: Global, left: &[Solution], right: &[Solution]) -> Result<Vec<Solution>, Memory>
    ensures { IfOk result (λ rows. rows.items ≡ spec.minus left.now right.now) }
{
    minus_with(alloc, copy_rows(alloc, left)?, copy_rows(alloc, right)?)
}

/// The rows that `minus` gives, with rows that are handed over: no row is copied.
pub fn minus_with(
    alloc: Global,
    left: Vec<Solution>,
    right: Vec<Solution>,
) -> Result<Vec<Solution>, Memory>
    ensures { IfOk result (λ rows. rows.items ≡ spec.minus left.items right.items) }
{
    let shared = shared_names(alloc, left.as_slice(), right.as_slice())?;
    let index = by_terms(shared.as_slice(), right)?;
    keep(alloc, left, index.as_slice(), shared.as_slice())
}

// The rows of the left that none of the sorted rows with their terms under the shared names removes.
fn keep(
    alloc: Global,
    left: Vec<Solution>,
    index: &[Solution],
    shared: &[Name],
) -> Result<Vec<Solution>, Memory>
    requires { IsSortedBy (λ a b. is_lt (row_cmp shared.now a b)) index.now }
    ensures { IfOk result (λ rows. rows.items ≡ kept shared.now index.now left.items) }
{
    let mut rows = Vec::new(alloc);
    for row in left {
        if stays(&row, with_terms(index, shared, &row)) {
            rows.push(row)?;
        }
    }
    Ok(rows)
}

// Whether no row of the others removes a row.
#[tactic(auto, unfolding(fx_algebra::specs::Operators::stays))]
fn stays(row: &Solution, others: &[Solution]) -> bool
    ensures { result ≡ spec.stays others.now row.now }
{
    for other in others {
        if row.agrees(other) && shares(row, other) {
            return false;
        }
    }
    true
}

// Whether both bind some name.
fn shares(left: &Solution, right: &Solution) -> bool
    ensures { result ≡ spec.shares left.now right.now }
{
    for pair in left.pairs() {
        if right.get(&pair.0).is_some() {
            return true;
        }
    }
    false
}
