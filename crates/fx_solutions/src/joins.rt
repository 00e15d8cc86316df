//! Joins.
ghost use Rattle.std.specs.Prelude.{◌≡◌, ◌++◌, ◌&&◌, true, filter, IfOk, IsPermutation, OnOk};
ghost use Rattle.std.specs.List.{list_all};
ghost use Rattle.std.specs.List.Sorted.{IsSortedBy};
ghost use Rattle.std.specs.Ordering.{is_eq, is_le, is_lt};
ghost use Rattle.fx_algebra.specs.Operators.{join as join_of, merges};
ghost use Rattle.fx_algebra.specs.Sequences.{row_cmp};
ghost use Rattle.fx_solutions.specs.Joins as spec;

use crate::known_rows::known_to_rise;
use crate::sequences::compare_rows;
use fx_algebra::Solution;
use fx_terms::{Memory, Name};
use std::alloc::Global;
use std::cmp::Ordering;

/// The join of two lists of rows: the merge of each row of the left with each row of the right that agrees with it, in some
/// order (SPARQL 1.1 section 18.5).
///
/// The rows of the right are sorted by the terms of the names that all rows of both sides bind, and for each row of the left
/// those with its terms are found by halves. Where the left is the one row that binds nothing, the join is the right.
pub fn join(alloc: Global, left: &[Solution], right: &[Solution]) -> Result<Vec<Solution>, Memory>
    ensures { IfOk result (λ rows. IsPermutation (join_of left.now right.now) rows.items) }
{
    join_with(alloc, left, copy_rows(alloc, right)?)
}

/// The join, as `join` gives it, with rows that are handed over: no row of the right is copied.
pub fn join_with(
    alloc: Global,
    left: &[Solution],
    right: Vec<Solution>,
) -> Result<Vec<Solution>, Memory>
    ensures { IfOk result (λ rows. IsPermutation (join_of left.now right.items) rows.items) }
{
    if is_one_empty(left) {
        known_to_rise(right.as_slice());
        return Ok(right);
    }
    let shared = shared_names(alloc, left, right.as_slice())?;
    let index = by_terms(shared.as_slice(), right)?;
    merge_all(alloc, left, index.as_slice(), shared.as_slice())
}

// Whether there is one row, which binds nothing.
fn is_one_empty(rows: &[Solution]) -> bool
    ensures { result ≡ spec.is_one_empty rows.now }
{
    match rows {
        [row] => row.pairs().is_empty(),
        _ => false,
    }
}

// Each row of the left, merged with those of the sorted rows that have its terms under the shared names and agree with it.
fn merge_all(
    alloc: Global,
    left: &[Solution],
    index: &[Solution],
    shared: &[Name],
) -> Result<Vec<Solution>, Memory>
    requires { IsSortedBy (λ a b. is_lt (row_cmp shared.now a b)) index.now }
    ensures { IfOk result (λ rows. rows.items ≡ spec.merged shared.now index.now left.now) }
{
    let mut rows = Vec::new(alloc);
    for row in left {
        add_merges(alloc, &mut rows, row, with_terms(index, shared, row))?;
    }
    Ok(rows)
}

// Adds what a row merges to with each of the others that agrees with it.
fn add_merges(
    alloc: Global,
    rows: &mut Vec<Solution>,
    row: &Solution,
    others: &[Solution],
) -> Result<(), Memory>
    ensures { OnOk result (rows.new.items ≡ rows.old.items ++ merges others.now row.now) }
{
    for other in others {
        if row.agrees(other) {
            rows.push(row.merge(alloc, other)?)?;
        }
    }
    Ok(())
}

// Names that each row of both sides binds.
pub(crate) fn shared_names(
    alloc: Global,
    left: &[Solution],
    right: &[Solution],
) -> Result<Vec<Name>, Memory>
    ensures { IfOk result (λ names. list_all (spec.is_shared left.now right.now) names.items ≡ true) }
{
    let mut shared = Vec::new(alloc);
    if let Some(first) = right.first() {
        for pair in first.pairs() {
            if is_bound_in(left, &pair.0) && is_bound_in(right, &pair.0) {
                shared.push(pair.0.copy()?)?;
            }
        }
    }
    Ok(shared)
}

// Whether each row binds a name.
fn is_bound_in(rows: &[Solution], name: &Name) -> bool
    ensures { result ≡ spec.is_bound_in rows.now name.now }
{
    for row in rows {
        if row.get(name).is_none() {
            return false;
        }
    }
    true
}

// The rows in the order of their terms under names.
pub(crate) fn by_terms(names: &[Name], rows: Vec<Solution>) -> Result<Vec<Solution>, Memory>
    ensures same { IfOk result (λ v. IsPermutation rows.items v.items) }
    ensures rises { IfOk result (λ v. IsSortedBy (λ a b. is_lt (row_cmp names.now a b)) v.items) }
{
    let mut rows = rows;
    rows.sort_by(|left, right| compare_rows(names, left, right))?;
    Ok(rows)
}

// Of rows in the order of their terms under names those that have a row's terms. They stand together, so both ends are
// searched for by halves.
pub(crate) fn with_terms<'a>(rows: &'a [Solution], names: &[Name], row: &Solution) -> &'a [Solution]
    requires { IsSortedBy (λ a b. is_lt (row_cmp names.now a b)) rows.now }
    ensures { result.now ≡ filter (λ r. is_eq (row_cmp names.now r row.now)) rows.now }
{
    let start = rows.partition_point(|r| is_below(r, names, row));
    let rest = &rows[start..];
    let end = rest.partition_point(|r| is_up_to(r, names, row));
    &rest[..end]
}

fn is_below(other: &Solution, names: &[Name], row: &Solution) -> bool
    ensures { result ≡ is_lt (row_cmp names.now other.now row.now) }
{
    compare_rows(names, other, row) == Ordering::Less
}

fn is_up_to(other: &Solution, names: &[Name], row: &Solution) -> bool
    ensures { result ≡ is_le (row_cmp names.now other.now row.now) }
{
    compare_rows(names, other, row) != Ordering::Greater
}

pub(crate) fn copy_rows(alloc: Global, rows: &[Solution]) -> Result<Vec<Solution>, Memory>
    ensures { IfOk result (λ copies. copies.items ≡ rows.now) }
{
    let mut copies = Vec::with_capacity(alloc, rows.len())?;
    for row in rows {
        copies.push(row.copy(alloc)?)?;
    }
    Ok(copies)
}
