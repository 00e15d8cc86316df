//! Runs of triple patterns, in an order that looks few triples up.
ghost use Rattle.std.specs.Prelude.{◌≡◌, ◌<◌, ◌∷◌, [], IfOk, IsPermutation, length};
ghost use Rattle.fx_algebra.specs.Evaluation.{extended, rows_from};
ghost use Rattle.fx_evaluation.specs.Runs as spec;
ghost use Rattle.fx_steps.specs.Fewer.{AreFewer};

use crate::conditions::early;
use crate::estimates::{Choice, growth, is_scanned, next};
use crate::known::with_known;
use fx_algebra::{Expr, Solution};
use fx_solutions::join_with;
use fx_solutions::known_rows::known_to_rise;
use fx_store::Store;
use fx_terms::{Memory, Pattern};
use std::alloc::Global;

/// Rows, and the patterns that they are still to be joined with.
#[derive(Drop)]
pub(crate) struct Run {
    pub rows: Vec<Solution>,
    pub left: Vec<Pattern>,
}

/// The rows that patterns give from rows, without some that bind all variables of a condition that doesn't hold on them, in an order that `next` chooses
/// pattern by pattern.
///
/// A pattern that shares no variable with the rows can start a part of its own, to which others are added until it shares one; then the two are
/// joined. So rows are multiplied only where nothing connects them. A condition is applied as soon as the first row binds its variables, but not behind the last pattern
/// of a group, since there all are.
pub(crate) fn with_run(
    alloc: Global,
    store: &Store,
    patterns: Vec<Pattern>,
    before: Vec<Solution>,
    conditions: &[Expr],
    is_last: bool,
) -> Result<Vec<Solution>, Memory>
    ensures { IfOk result (λ rows. AreFewer conditions.now rows.items (rows_from store.now before.items patterns.items)) }
{
    let rows = with_known(alloc, before, patterns.as_slice(), conditions)?;
    let mut run = Run {
        rows,
        left: patterns,
    };
    while !run.left.is_empty() {
        run = with_next_of(alloc, store, run, conditions, is_last)?;
    }
    Ok(run.rows)
}

/// A run with one pattern more, or with a part more, and the conditions whose variables this binds.
pub(crate) fn with_next_of(
    alloc: Global,
    store: &Store,
    run: Run,
    conditions: &[Expr],
    is_last: bool,
) -> Result<Run, Memory>
    requires { 0 < length run.left.items }
    ensures rows { IfOk result (λ more. AreFewer conditions.now (rows_from store.now more.rows.items more.left.items) (rows_from store.now run.rows.items run.left.items)) }
    ensures fewer { IfOk result (λ more. length more.left.items < length run.left.items) }
{
    let first = first_of(alloc, run.rows.as_slice())?;
    let more = with_next(alloc, store, run)?;
    if conditions.is_empty() || (is_last && more.left.is_empty()) {
        return Ok(more);
    }
    known_to_rise(more.rows.as_slice());
    let rows = early(alloc, more.rows, conditions, &first)?;
    known_to_rise(rows.as_slice());
    Ok(Run {
        rows,
        left: more.left,
    })
}

/// The first row, or one that binds nothing where there is none.
pub(crate) fn first_of(alloc: Global, rows: &[Solution]) -> Result<Solution, Memory> {
    match rows.first() {
        Some(row) => row.copy(alloc),
        None => Ok(Solution::empty(alloc)),
    }
}

// A run with one pattern more, or with a part more.
fn with_next(alloc: Global, store: &Store, run: Run) -> Result<Run, Memory>
    requires { 0 < length run.left.items }
    ensures same { IfOk result (λ more. IsPermutation (rows_from store.now run.rows.items run.left.items) (rows_from store.now more.rows.items more.left.items)) }
    ensures fewer { IfOk result (λ more. length more.left.items < length run.left.items) }
{
    // The order changes no row, since the triples of a graph rise.
    store.known();
    known_to_rise(run.rows.as_slice());
    match next(store, run.left.as_slice(), run.rows.as_slice()) {
        Choice::Beside(place) => {
            let more = with_one(alloc, store, run, place)?;
            Ok(more)
        }
        Choice::Apart(place) => with_part(alloc, store, run, place),
    }
}

// A run with the pattern at a place looked up.
fn with_one(alloc: Global, store: &Store, run: Run, place: usize) -> Result<Run, Memory>
    requires { place < length run.left.items }
    ensures more { IfOk result (λ more. spec.IsOneMore store.now run.rows.items run.left.items more.rows.items more.left.items) }
    ensures fewer { IfOk result (λ more. length more.left.items < length run.left.items) }
{
    let mut left = run.left;
    let pattern = left.remove(place);
    let rows = with_pattern(alloc, store, pattern, run.rows)?;
    Ok(Run { rows, left })
}

// A run joined with the part that the pattern at a place starts.
fn with_part(alloc: Global, store: &Store, run: Run, place: usize) -> Result<Run, Memory>
    requires { place < length run.left.items }
    ensures same { IfOk result (λ more. IsPermutation (rows_from store.now run.rows.items run.left.items) (rows_from store.now more.rows.items more.left.items)) }
    ensures fewer { IfOk result (λ more. length more.left.items < length run.left.items) }
{
    store.known();
    known_to_rise(run.rows.as_slice());
    let part = part_at(alloc, store, run.left, place, run.rows.as_slice())?;
    let rows = join_with(alloc, run.rows.as_slice(), part.rows)?;
    Ok(Run {
        rows,
        left: part.left,
    })
}

// The rows of the pattern at a place, and of others with which it comes to share a variable with rows, and the patterns that are left.
fn part_at(
    alloc: Global,
    store: &Store,
    patterns: Vec<Pattern>,
    place: usize,
    rows: &[Solution],
) -> Result<Run, Memory>
    requires { place < length patterns.items }
    ensures part { IfOk result (λ part. spec.IsPart store.now patterns.items part.rows.items part.left.items) }
    ensures fewer { IfOk result (λ part. length part.left.items < length patterns.items) }
{
    let mut start = Vec::new(alloc);
    start.push(Solution::empty(alloc))?;
    let whole = Run {
        rows: start,
        left: patterns,
    };
    let mut part = with_one(alloc, store, whole, place)?;
    while let Some(place) = growth(store, part.left.as_slice(), part.rows.as_slice(), rows) {
        known_to_rise(part.rows.as_slice());
        part = with_one(alloc, store, part, place)?;
    }
    Ok(part)
}

// The rows of a pattern by itself.
fn rows_of(alloc: Global, store: &Store, pattern: Pattern) -> Result<Vec<Solution>, Memory>
    ensures { IfOk result (λ rows. rows.items ≡ rows_from store.now ([] ∷ []) (pattern ∷ [])) }
{
    let nothing = Solution::empty(alloc);
    let rows = store.matches(alloc, &pattern, &nothing)?;
    Ok(rows)
}

/// Rows with each triple that fits a pattern under them, in some order. Where the rows are many and the pattern has few triples, these are found at once, and
/// joined.
pub(crate) fn with_pattern(
    alloc: Global,
    store: &Store,
    pattern: Pattern,
    rows: Vec<Solution>,
) -> Result<Vec<Solution>, Memory>
    ensures { IfOk result (λ more. IsPermutation (extended store.now pattern rows.items) more.items) }
{
    if is_scanned(alloc, store, &pattern, rows.as_slice()) {
        known_to_rise(rows.as_slice());
        let found = rows_of(alloc, store, pattern)?;
        let more = join_with(alloc, rows.as_slice(), found)?;
        return Ok(more);
    }
    let more = store.extend(alloc, &pattern, rows.as_slice())?;
    Ok(more)
}

/// Patterns in the order in which they are taken under some of the rows, and under what these give.
pub(crate) fn in_order(
    alloc: Global,
    store: &Store,
    patterns: Vec<Pattern>,
    rows: &[Solution],
) -> Result<Vec<Pattern>, Memory>
    ensures { IfOk result (λ ordered. IsPermutation patterns.items ordered.items) }
{
    let mut left = patterns;
    let mut ordered = Vec::new(alloc);
    let mut seen = some_of(alloc, rows)?;
    while left.len() > 1 {
        let place = next(store, left.as_slice(), seen.as_slice()).place();
        seen = seen_with(alloc, store, &left[place], seen)?;
        ordered.push(left.remove(place))?;
    }
    ordered.append(&mut left)?;
    Ok(ordered)
}

/// Some of the rows that a pattern gives of rows, or these, where it gives none.
pub(crate) fn seen_with(
    alloc: Global,
    store: &Store,
    pattern: &Pattern,
    rows: Vec<Solution>,
) -> Result<Vec<Solution>, Memory> {
    let more = store.extend(alloc, pattern, rows.as_slice())?;
    if more.is_empty() {
        Ok(rows)
    } else {
        some_of(alloc, more.as_slice())
    }
}

// The first of the rows, the last and one between.
fn some_of(alloc: Global, rows: &[Solution]) -> Result<Vec<Solution>, Memory> {
    let mut some = Vec::new(alloc);
    let count = rows.len();
    for place in [0, count / 2, count.saturating_sub(1)] {
        if let Some(row) = rows.get(place) {
            some.push(row.copy(alloc)?)?;
        }
    }
    Ok(some)
}
