//! The rows of an OPTIONAL whose group holds triple patterns and filters alone (SPARQL 1.1 sections 18.2.2.2 and 18.5, LeftJoin).
ghost use Rattle.std.specs.Prelude.{◌≡◌, ◌++◌, ◌∷◌, [], IfOk, IfSome, OnOk};
ghost use Rattle.std.specs.List.{flat_map};
ghost use Rattle.fx_algebra.specs.Evaluation.{rows_from};
ghost use Rattle.fx_evaluation.specs.Optionals as spec;

use crate::estimates::ROWS_FOR_A_TRIPLE;
use fx_algebra::{Element, Expr, Group, Solution};
use fx_solutions::{filter, or_itself};
use fx_store::Store;
use fx_terms::{Memory, Pattern};
use std::alloc::Global;

/// The patterns of a group that holds triple patterns and filters alone, in text order, where they are to be looked up under so many rows; else
/// nothing. They aren't where the rows are too many for the triples of each: there the group's rows are found at once, and joined.
pub(crate) fn run_under(
    alloc: Global,
    store: &Store,
    group: &Group,
    rows: usize,
) -> Result<Option<Vec<Pattern>>, Memory>
    ensures { IfOk result (λ run. IfSome run (λ patterns. spec.IsRunOf group.now patterns.items)) }
{
    if has_enough(alloc, store, group, rows as u64) {
        run_of(alloc, group)
    } else {
        Ok(None)
    }
}

// Whether a triple pattern of the group has triples enough for so many rows to be looked up.
fn has_enough(alloc: Global, store: &Store, group: &Group, rows: u64) -> bool {
    let nothing = Solution::empty(alloc);
    group.elements.as_slice().iter().any(|element| {
        triples_of(store, element, &nothing).saturating_mul(ROWS_FOR_A_TRIPLE) >= rows
    })
}

// How many triples have the constants of a triple pattern.
fn triples_of(store: &Store, element: &Element, nothing: &Solution) -> u64 {
    match element {
        Element::Triple(pattern) => store.count(pattern, nothing),
        _ => 0,
    }
}

/// The patterns of a group that holds triple patterns and filters alone, in text order; nothing where it holds anything else.
pub(crate) fn run_of(alloc: Global, group: &Group) -> Result<Option<Vec<Pattern>>, Memory>
    ensures { IfOk result (λ run. IfSome run (λ patterns. spec.IsRunOf group.now patterns.items)) }
{
    let mut patterns = Vec::new(alloc);
    for element in group.elements.as_slice() {
        match element {
            Element::Triple(pattern) => patterns.push(pattern.copy()?)?,
            Element::Filter(_) => {}
            _ => return Ok(None),
        }
    }
    Ok(Some(patterns))
}

/// Each row with what the patterns have for it on which the conditions hold, or the row itself where that is nothing. The patterns are looked up under the row,
/// so nothing is looked at that agrees with none.
pub(crate) fn with_matches(
    alloc: Global,
    store: &Store,
    before: Vec<Solution>,
    patterns: &[Pattern],
    conditions: &[Expr],
) -> Result<Vec<Solution>, Memory>
    ensures { IfOk result (λ rows. rows.items ≡ flat_map (spec.matches_or_itself store.now patterns.now conditions.now) before.items) }
{
    let mut rows = Vec::new(alloc);
    for row in before {
        add_matches(alloc, store, &mut rows, row, patterns, conditions)?;
    }
    Ok(rows)
}

// Adds what the patterns have for a row, or the row itself.
fn add_matches(
    alloc: Global,
    store: &Store,
    rows: &mut Vec<Solution>,
    row: Solution,
    patterns: &[Pattern],
    conditions: &[Expr],
) -> Result<(), Memory>
    ensures { OnOk result (rows.new.items ≡ rows.old.items ++ spec.matches_or_itself store.now patterns.now conditions.now row) }
{
    let found = found_for(alloc, store, &row, patterns)?;
    let found = filter(alloc, found, conditions)?;
    let mut found = or_itself(row, found)?;
    rows.append(&mut found)?;
    Ok(())
}

// What the patterns have for a row, one pattern after the other.
fn found_for(
    alloc: Global,
    store: &Store,
    row: &Solution,
    patterns: &[Pattern],
) -> Result<Vec<Solution>, Memory>
    ensures { IfOk result (λ rows. rows.items ≡ rows_from store.now (row.now ∷ []) patterns.now) }
{
    let Some((first, rest)) = patterns.split_first() else {
        return alone(alloc, row);
    };
    let mut rows = store.matches(alloc, first, row)?;
    for pattern in rest {
        rows = store.extend(alloc, pattern, rows.as_slice())?;
    }
    Ok(rows)
}

// A row by itself.
fn alone(alloc: Global, row: &Solution) -> Result<Vec<Solution>, Memory>
    ensures { IfOk result (λ rows. rows.items ≡ row.now ∷ []) }
{
    let mut rows = Vec::new(alloc);
    rows.push(row.copy(alloc)?)?;
    Ok(rows)
}
