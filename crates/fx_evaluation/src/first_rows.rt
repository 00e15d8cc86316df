//! Whether a run of triple patterns has a row on which conditions hold: its rows are taken one after the other, and no further than the first.
ghost use Rattle.std.specs.Prelude.{◌≡◌, ◌∷◌, [], All, IfOk, IfSome, IsPermutation, IsTrue, OnOk};
ghost use Rattle.fx_algebra.specs.Answers.{has_rows};
ghost use Rattle.fx_algebra.specs.Evaluation.{extended, rows_from};
ghost use Rattle.fx_algebra.specs.Groups.{one_empty};
ghost use Rattle.fx_algebra.specs.Operators.{filtered};
ghost use Rattle.fx_algebra.specs.Solutions.{rises};
ghost use Rattle.fx_evaluation.specs.FirstRows.{TellsOfRows};
ghost use Rattle.fx_evaluation.specs.Known.{ComeToFewer};
ghost use Rattle.fx_steps.specs.Fewer.{AreFewer};

use crate::conditions::early;
use crate::estimates::{Choice, next};
use crate::groups::conditions_of;
use crate::known::with_known;
use crate::optionals::run_of;
use crate::runs::{first_of, seen_with};
use fx_algebra::{Expr, Group, Solution};
use fx_expr::holds;
use fx_solutions::known_rows::known_to_rise;
use fx_store::Store;
use fx_terms::{Memory, Pattern};
use std::alloc::Global;

/// Whether a group that holds triple patterns and filters alone has a row over a store's graph. Of any other group nothing is answered.
///
/// The patterns are taken in an order that gives few rows. A row that one gives is followed through all that are left before the next is looked at,
/// so no more rows are there at once than one pattern gives of one row, for each of the patterns. Nothing is answered where a pattern before the last
/// would start a part of its own in this order: there each row before it would go through all of that part.
pub(crate) fn row_of_group(
    alloc: Global,
    store: &Store,
    group: &Group,
) -> Result<Option<bool>, Memory>
    ensures { IfOk result (λ found. IfSome found (TellsOfRows group.now store.now)) }
{
    match run_of(alloc, group)? {
        None => Ok(None),
        Some(patterns) => {
            let conditions = conditions_of(alloc, group)?;
            let found = some_row(alloc, store, patterns, conditions.as_slice())?;
            Ok(found)
        }
    }
}

// Whether patterns give a row on which the conditions hold; nothing where they don't go one after the other.
fn some_row(
    alloc: Global,
    store: &Store,
    patterns: Vec<Pattern>,
    conditions: &[Expr],
) -> Result<Option<bool>, Memory>
    ensures { IfOk result (λ found. IfSome found (λ truth. truth ≡ has_rows (filtered conditions.now (rows_from store.now one_empty patterns.items)))) }
{
    store.known();
    let rows = start(alloc, patterns.as_slice(), conditions)?;
    known_to_rise(rows.as_slice());
    match order_under(alloc, store, patterns, rows.as_slice())? {
        None => Ok(None),
        Some(ordered) => {
            let truth = has_row(
                alloc,
                store,
                rows.as_slice(),
                ordered.as_slice(),
                conditions,
            )?;
            Ok(Some(truth))
        }
    }
}

// The one empty solution, with what conditions say of the variables of patterns.
fn start(alloc: Global, patterns: &[Pattern], conditions: &[Expr]) -> Result<Vec<Solution>, Memory>
    ensures { IfOk result (λ rows. ComeToFewer conditions.now patterns.now rows.items one_empty) }
{
    let mut rows = Vec::new(alloc);
    rows.push(Solution::empty(alloc))?;
    let known = with_known(alloc, rows, patterns, conditions)?;
    Ok(known)
}

// Patterns in the order in which they are taken under rows; nothing where one before the last would start a part of its own.
fn order_under(
    alloc: Global,
    store: &Store,
    patterns: Vec<Pattern>,
    rows: &[Solution],
) -> Result<Option<Vec<Pattern>>, Memory>
    ensures { IfOk result (λ order. IfSome order (λ ordered. IsPermutation patterns.items ordered.items)) }
{
    let mut left = patterns;
    let mut ordered = Vec::new(alloc);
    let mut seen = Vec::new(alloc);
    seen.push(first_of(alloc, rows)?)?;
    while left.len() > 1 {
        match next(store, left.as_slice(), seen.as_slice()) {
            Choice::Apart(_) => return Ok(None),
            Choice::Beside(place) => {
                if left.len() > 2 {
                    seen = seen_with(alloc, store, &left[place], seen)?;
                }
                ordered.push(left.remove(place))?;
            }
        }
    }
    ordered.append(&mut left)?;
    Ok(Some(ordered))
}

// Whether patterns give of rows a row on which the conditions hold, the first of them first.
#[cycle(depths)]
fn has_row(
    alloc: Global,
    store: &Store,
    rows: &[Solution],
    left: &[Pattern],
    conditions: &[Expr],
) -> Result<bool, Memory>
    ensures { IfOk result (λ found. found ≡ has_rows (filtered conditions.now (rows_from store.now rows.now left.now))) }
{
    let Some((first, rest)) = left.split_first() else {
        return some_holds(alloc, rows, conditions);
    };
    for row in rows {
        if leads_to_row(alloc, store, row, first, rest, conditions)? {
            return Ok(true);
        }
    }
    Ok(false)
}

// The same of one row, by the first pattern and the others.
#[cycle(depths)]
fn leads_to_row(
    alloc: Global,
    store: &Store,
    row: &Solution,
    first: &Pattern,
    rest: &[Pattern],
    conditions: &[Expr],
) -> Result<bool, Memory>
    ensures { IfOk result (λ found. found ≡ has_rows (filtered conditions.now (rows_from store.now (row.now ∷ []) (first.now ∷ rest.now)))) }
{
    if rest.is_empty() && conditions.is_empty() {
        return Ok(store.some_fits(first, row));
    }
    let more = next_rows(alloc, store, first, row, conditions, rest.is_empty())?;
    known_to_rise(more.as_slice());
    let found = has_row(alloc, store, more.as_slice(), rest, conditions)?;
    Ok(found)
}

// The rows that a pattern gives of a row, without some that conditions refuse. Behind the last pattern all conditions are looked at anyway.
fn next_rows(
    alloc: Global,
    store: &Store,
    pattern: &Pattern,
    row: &Solution,
    conditions: &[Expr],
    is_last: bool,
) -> Result<Vec<Solution>, Memory>
    ensures fewer { IfOk result (λ more. AreFewer conditions.now more.items (extended store.now pattern.now (row.now ∷ []))) }
    ensures rise { OnOk result (All (λ s. IsTrue (rises s)) (extended store.now pattern.now (row.now ∷ []))) }
{
    let found = store.matches(alloc, pattern, row)?;
    known_to_rise(found.as_slice());
    if is_last {
        return Ok(found);
    }
    let kept = early(alloc, found, conditions, row)?;
    Ok(kept)
}

// Whether the conditions hold on some row. It looks no further than the first.
fn some_holds(alloc: Global, rows: &[Solution], conditions: &[Expr]) -> Result<bool, Memory>
    ensures { IfOk result (λ found. found ≡ has_rows (filtered conditions.now rows.now)) }
{
    for row in rows {
        if holds(alloc, conditions, row)? {
            return Ok(true);
        }
    }
    Ok(false)
}
