//! Which triple pattern is looked up next: estimates, on which no row hangs.
ghost use Rattle.std.specs.Prelude.{◌≡◌, ◌<◌, IfOk, IfSome, length};
ghost use Rattle.fx_evaluation.specs.Runs as spec;

use crate::known::known_by;
use fx_algebra::{Element, Expr, Group, Inline, Solution};
use fx_store::Store;
use fx_terms::{Memory, Name, Pattern, PatternTerm, Term};
use std::alloc::Global;

/// How many rows are looked up in the time in which one triple of a pattern is found and joined, as it was measured.
pub(crate) const ROWS_FOR_A_TRIPLE: u64 = 4;

// How many times fewer triples a pattern has to have by itself than another gives rows beside those that are there, to start a part of its own.
const TIMES_FEWER: u64 = 8;

// How many triples are found and joined in the time in which a group is gone through for one row more.
const TRIPLES_FOR_A_ROW: u64 = 8;

/// The place of the pattern that is taken next.
#[derive(Clone, Copy)]
pub(crate) enum Choice {
    /// It is looked up under the rows.
    Beside(usize),
    /// It starts a part of its own.
    Apart(usize),
}

impl Choice {
    /// The place.
    pub(crate) fn place(self) -> usize
        ensures { result ≡ spec.place_of self }
    {
        match self {
            Choice::Beside(place) => place,
            Choice::Apart(place) => place,
        }
    }
}

// How many of the elements that are held back are compared.
const MOST_COMPARED: usize = 64;

// A pattern or an element by its place, and how many rows it is likely to give.
#[derive(Clone, Copy)]
struct Outlook {
    place: usize,
    rows: u64,
}

/// Which of the patterns that are left is taken next, beside rows.
///
/// Of those that have a variable that the first row binds it is the one that is likely to give the fewest rows, by the triples that it has under some of
/// the rows. A pattern that has none starts a part of its own where there is more than one row, and no other pattern gives nearly as few.
pub(crate) fn next(store: &Store, left: &[Pattern], rows: &[Solution]) -> Choice
    requires { 0 < length left.now }
    ensures { spec.place_of result < length left.now }
{
    if let [pattern] = left {
        return only(pattern, rows);
    }
    match fewest(store, left, rows, false) {
        None => first_apart(store, left, rows),
        Some(beside) => beside_or_apart(store, left, rows, beside),
    }
}

// The same where one pattern is left: no triples need be counted.
fn only(pattern: &Pattern, rows: &[Solution]) -> Choice
    ensures { spec.place_of result ≡ 0 }
{
    if rows.len() > 1 && is_apart(pattern, rows) {
        Choice::Apart(0)
    } else {
        Choice::Beside(0)
    }
}

// The same where no pattern has a variable of the rows.
fn first_apart(store: &Store, left: &[Pattern], rows: &[Solution]) -> Choice
    requires { 0 < length left.now }
    ensures { spec.place_of result < length left.now }
{
    match fewest(store, left, rows, true) {
        None => Choice::Beside(0),
        Some(apart) => {
            if rows.len() > 1 {
                Choice::Apart(apart.place)
            } else {
                Choice::Beside(apart.place)
            }
        }
    }
}

// The same where one has, and gives the fewest rows of those that have.
fn beside_or_apart(store: &Store, left: &[Pattern], rows: &[Solution], beside: Outlook) -> Choice
    requires { beside.place < length left.now }
    ensures { spec.place_of result < length left.now }
{
    if beside.rows < TIMES_FEWER {
        return Choice::Beside(beside.place);
    }
    match fewest(store, left, rows, true) {
        None => Choice::Beside(beside.place),
        Some(apart) => {
            if apart.rows < beside.rows / TIMES_FEWER {
                Choice::Apart(apart.place)
            } else {
                Choice::Beside(beside.place)
            }
        }
    }
}

/// The place of the pattern that a part grows by that is to be joined with rows: it has a variable of the part, and gives the fewest rows. Nothing where part and rows
/// share a variable, or where no pattern gives fewer rows than the two multiplied.
pub(crate) fn growth(
    store: &Store,
    left: &[Pattern],
    part: &[Solution],
    rows: &[Solution],
) -> Option<usize>
    ensures { IfSome result (λ place. place < length left.now) }
{
    if is_shared(part, rows) {
        return None;
    }
    match fewest(store, left, part, false) {
        None => None,
        Some(more) => {
            if more.rows < (part.len() as u64).saturating_mul(rows.len() as u64) {
                Some(more.place)
            } else {
                None
            }
        }
    }
}

// Whether the first rows of both share a variable, or there is none.
fn is_shared(part: &[Solution], rows: &[Solution]) -> bool {
    match (part.first(), rows.first()) {
        (Some(one), Some(other)) => one.pairs().iter().any(|pair| other.get(&pair.0).is_some()),
        _ => true,
    }
}

// Of the patterns that have a variable and none that the first row binds, or of the others, the one that gives the fewest rows.
fn fewest(store: &Store, left: &[Pattern], rows: &[Solution], apart: bool) -> Option<Outlook>
    ensures { IfSome result (λ outlook. outlook.place < length left.now) }
{
    let mut best: Option<Outlook> = None;
    for place in 0..left.len() {
        if is_apart(&left[place], rows) == apart {
            let outlook = Outlook {
                place,
                rows: rows_with(store, &left[place], rows),
            };
            best = Some(fewer(best, outlook));
        }
    }
    best
}

// The one with fewer rows, or the first.
fn fewer(best: Option<Outlook>, other: Outlook) -> Outlook
    ensures { spec.IsOneOf best other result }
{
    match best {
        None => other,
        Some(outlook) => {
            if other.rows < outlook.rows {
                other
            } else {
                outlook
            }
        }
    }
}

// How many rows a pattern is likely to give of rows, by its triples under the first, the last and one between.
fn rows_with(store: &Store, pattern: &Pattern, rows: &[Solution]) -> u64 {
    match rows {
        [] => 0,
        [row] => store.count(pattern, row),
        [first, .., last] => {
            let found = store
                .count(pattern, first)
                .saturating_add(store.count(pattern, &rows[rows.len() / 2]))
                .saturating_add(store.count(pattern, last));
            found.saturating_mul(rows.len() as u64) / 3
        }
    }
}

// Whether a pattern has a variable, and none that the first row binds.
fn is_apart(pattern: &Pattern, rows: &[Solution]) -> bool {
    match rows.first() {
        None => false,
        Some(row) => {
            let parts = [&pattern.subject, &pattern.predicate, &pattern.object];
            parts.iter().any(|part| is_variable(part))
                && !parts.iter().any(|part| is_bound(part, row))
        }
    }
}

fn is_variable(part: &PatternTerm) -> bool {
    matches!(part, PatternTerm::Variable(_))
}

fn is_bound(part: &PatternTerm, row: &Solution) -> bool {
    match part {
        PatternTerm::Variable(name) => row.get(name).is_some(),
        PatternTerm::Constant(_) => false,
    }
}

/// Whether a pattern has so few triples for so many rows that these are found at once, and joined by a variable that each row binds.
pub(crate) fn is_scanned(
    alloc: Global,
    store: &Store,
    pattern: &Pattern,
    rows: &[Solution],
) -> bool {
    let count = rows.len() as u64;
    if count <= ROWS_FOR_A_TRIPLE {
        return false;
    }
    let triples = store.count(pattern, &Solution::empty(alloc));
    triples.saturating_mul(ROWS_FOR_A_TRIPLE) < count && has_shared(pattern, rows)
}

// Whether a pattern has a variable that each row binds.
fn has_shared(pattern: &Pattern, rows: &[Solution]) -> bool {
    let parts = [&pattern.subject, &pattern.predicate, &pattern.object];
    parts.iter().any(|part| is_bound_in(part, rows))
}

fn is_bound_in(part: &PatternTerm, rows: &[Solution]) -> bool {
    rows.iter().all(|row| is_bound(part, row))
}

/// Whether rows are so few for the triples of an element that this is gone through for each of them by itself, where what they bind to IRIs is known.
pub(crate) fn is_small(
    alloc: Global,
    store: &Store,
    element: &Element,
    rows: &[Solution],
) -> Result<bool, Memory> {
    let Some(row) = rows.first() else {
        return Ok(true);
    };
    if row.pairs().is_empty() {
        return Ok(false);
    }
    let count = rows.len() as u64;
    let all = triples_of(store, element, &Solution::empty(alloc));
    if TRIPLES_FOR_A_ROW.saturating_mul(count) >= all {
        return Ok(false);
    }
    let known = iris_of(alloc, row, rows)?;
    let one = triples_of(store, element, &known).saturating_add(TRIPLES_FOR_A_ROW);
    Ok(one.saturating_mul(count) < all)
}

/// Which of the elements that are held back is joined next: of their places, of which the last comes first in the text, where that stands of the one that has the fewest triples, or rows
/// of its own. Nothing where it has more than the pattern of the run that has the fewest: then one of these is looked up before.
pub(crate) fn held_next(
    alloc: Global,
    store: &Store,
    elements: &[Element],
    held: &[usize],
    run: &[Pattern],
    rows: &[Solution],
    conditions: &[Expr],
) -> Result<Option<usize>, Memory>
    requires { 0 < length held.now }
    ensures { IfOk result (λ next. spec.IsHeldNext (length held.now) (length run.now) next) }
{
    let Some(row) = rows.first() else {
        return Ok(Some(held.len() - 1));
    };
    if held.len() == 1 && run.is_empty() {
        return Ok(Some(0));
    }
    let row = with_known(alloc, row, conditions)?;
    let known = iris_of(alloc, &row, &[])?;
    let lightest = lightest(store, elements, held, &known);
    match fewest_under(store, run, &row) {
        Some(first) if lightest.rows > first => Ok(None),
        _ => Ok(Some(lightest.place)),
    }
}

// Of the last places of elements the one whose element has the fewest triples under a row, the later of equal ones.
fn lightest(store: &Store, elements: &[Element], held: &[usize], row: &Solution) -> Outlook
    requires { 0 < length held.now }
    ensures { result.place < length held.now }
{
    let last = held.len() - 1;
    let mut best = Outlook {
        place: last,
        rows: triples_at(store, elements, held[last], row),
    };
    for back in 1..held.len().min(MOST_COMPARED) {
        let place = last - back;
        let rows = triples_at(store, elements, held[place], row);
        if rows < best.rows {
            best = Outlook { place, rows };
        }
    }
    best
}

// How many triples of the element at a place are likely to be found under a row.
fn triples_at(store: &Store, elements: &[Element], place: usize, row: &Solution) -> u64 {
    match elements.get(place) {
        None => 0,
        Some(element) => triples_of(store, element, row),
    }
}

// A row with what conditions say of variables that it lacks.
fn with_known(alloc: Global, row: &Solution, conditions: &[Expr]) -> Result<Solution, Memory> {
    let mut known = row.copy(alloc)?;
    for condition in conditions {
        if let Some((name, iri)) = known_by(condition) {
            known = with_iri(alloc, known, name, &Term::Iri(iri.copy()?))?;
        }
    }
    Ok(known)
}

// The triples under a row of the pattern that has the fewest.
fn fewest_under(store: &Store, patterns: &[Pattern], row: &Solution) -> Option<u64>
    ensures { IfSome result (λ _. 0 < length patterns.now) }
{
    let mut fewest: Option<u64> = None;
    for pattern in patterns {
        fewest = Some(least(fewest, store.count(pattern, row)));
    }
    fewest
}

fn least(fewest: Option<u64>, other: u64) -> u64 {
    match fewest {
        None => other,
        Some(fewest) => fewest.min(other),
    }
}

// What a row binds to IRIs, of the variables that each of the rows binds to one.
fn iris_of(alloc: Global, row: &Solution, rows: &[Solution]) -> Result<Solution, Memory> {
    let mut iris = Solution::empty(alloc);
    for pair in row.pairs() {
        if is_iri_in(&pair.0, rows) {
            iris = with_iri(alloc, iris, &pair.0, &pair.1)?;
        }
    }
    Ok(iris)
}

fn is_iri_in(name: &Name, rows: &[Solution]) -> bool {
    rows.iter()
        .all(|row| matches!(row.get(name), Some(Term::Iri(_))))
}

fn with_iri(alloc: Global, iris: Solution, name: &Name, term: &Term) -> Result<Solution, Memory> {
    if matches!(term, Term::Iri(_)) && iris.get(name).is_none() {
        iris.with(alloc, name, term)
    } else {
        Ok(iris)
    }
}

// How many triples of an element are likely to be found under a row.
#[cycle(triples)]
fn triples_of(store: &Store, element: &Element, row: &Solution) -> u64 {
    match element {
        Element::Optional(group) => triples_in(store, group, row),
        Element::Minus(group) => triples_in(store, group, row),
        Element::Union(groups) => triples_in_all(store, groups.as_slice(), row),
        Element::Values(inline) => rows_of_table(inline, row),
        _ => 0,
    }
}

// How many rows of a table of VALUES are likely to agree with a row: one, where both bind a variable.
fn rows_of_table(inline: &Inline, row: &Solution) -> u64 {
    if inline
        .columns
        .as_slice()
        .iter()
        .any(|name| row.get(name).is_some())
    {
        1
    } else {
        inline.rows.as_slice().len() as u64
    }
}

// Those of the triple pattern of a group that has the fewest, or of the UNION: the others are looked up under what it gives. Where a group has neither, those of its
// elements.
#[cycle(triples)]
fn triples_in(store: &Store, group: &Group, row: &Solution) -> u64 {
    let mut fewest: Option<u64> = None;
    let mut others = 0u64;
    for element in group.elements.as_slice() {
        match element {
            Element::Triple(pattern) => fewest = Some(least(fewest, store.count(pattern, row))),
            Element::Union(groups) => fewest = Some(least(
                fewest,
                triples_in_all(store, groups.as_slice(), row),
            )),
            _ => others = others.saturating_add(triples_of(store, element, row)),
        }
    }
    fewest.unwrap_or(others)
}

#[cycle(triples)]
fn triples_in_all(store: &Store, groups: &[Group], row: &Solution) -> u64 {
    let mut all = 0u64;
    for group in groups {
        all = all.saturating_add(triples_in(store, group, row));
    }
    all
}
