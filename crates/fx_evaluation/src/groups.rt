//! The rows of groups (SPARQL 1.1 sections 18.2.2 and 18.6).
ghost use Rattle.std.specs.Prelude.{◌≡◌, ◌∷◌, [], IfOk, OnOk};
ghost use Rattle.fx_algebra.specs.declared.queries.Element.TheVariants as element;
ghost use Rattle.fx_evaluation.specs.GroupRows as spec;
ghost use Rattle.fx_evaluation.specs.Optionals.{IsRunOf};

use crate::conditions::{both, conjuncts};
use crate::estimates::{held_next, is_small};
use crate::known::{known_of, with_known};
use crate::optionals::{run_under, with_matches};
use crate::runs::{Run, in_order, with_next_of, with_run};
use fx_algebra::{Element, Expr, Group, Solution};
use fx_solutions::known_rows::known_to_rise;
use fx_solutions::{extend, filter, inline_rows, join_with, left_join_with, minus_with};
use fx_store::Store;
use fx_terms::{Memory, Pattern};
use std::alloc::Global;

/// The rows of a group over a store's graph, in some order, where every occurrence of SERVICE in the group is down: none is asked, and
/// each leaves the rows before it as they are.
///
/// The group is gone through from left to right. The triple patterns of a run are held back, and so is each VALUES, UNION and nested group that stands in front of them, among
/// them or behind them. Where an element comes that isn't one of these, nor a filter, and at the end, they are taken one by one: now a pattern is looked up, now an element
/// joined, in an order that gives few rows. So the rows before
/// a run are known to its look-ups, as are those before an OPTIONAL whose group holds triple patterns and filters alone, unless they are many and the triples of these
/// patterns few. A nested group, a UNION, any other OPTIONAL and a MINUS begin with the one empty solution; where the rows before them are few, they are gone through for each
/// of these, and what this binds to IRIs is known to their look-ups. The filters of the group are applied at its end; a row that binds
/// all variables of one, or of a part of a conjunction, that doesn't hold on it goes before.
pub fn group_rows(alloc: Global, store: &Store, group: &Group) -> Result<Vec<Solution>, Memory>
    ensures { IfOk result (λ rows. spec.AreRowsOf group.now store.now rows.items) }
{
    let rows = rows_with(alloc, store, group, &[])?;
    Ok(rows)
}

// The rows of a group, without some that conditions from outside refuse.
#[cycle(rows)]
fn rows_with(
    alloc: Global,
    store: &Store,
    group: &Group,
    outside: &[Expr],
) -> Result<Vec<Solution>, Memory>
    ensures { IfOk result (λ rows. spec.AreFewerRows group.now store.now outside.now rows.items) }
{
    let own = conditions_of(alloc, group)?;
    let conditions = both(alloc, own.as_slice(), outside)?;
    let found = nearly(alloc, store, group, conditions.as_slice())?;
    let rows = filter(alloc, found, own.as_slice())?;
    Ok(rows)
}

// The rows of a group before its filters, without some that conditions refuse.
#[cycle(rows)]
fn nearly(
    alloc: Global,
    store: &Store,
    group: &Group,
    conditions: &[Expr],
) -> Result<Vec<Solution>, Memory>
    ensures { IfOk result (λ rows. spec.AreNearly group.now store.now conditions.now rows.items) }
{
    let elements = group.elements.as_slice();
    let mut rows = Vec::new(alloc);
    rows.push(Solution::empty(alloc))?;
    let mut left = Vec::new(alloc);
    let mut held = Vec::new(alloc);
    for place in 0..elements.len() {
        let element = &elements[place];
        known_to_rise(rows.as_slice());
        match element {
            Element::Triple(pattern) => left.push(pattern.copy()?)?,
            Element::Filter(_) => {}
            Element::Values(_) => held.push(place)?,
            Element::Union(_) => held.push(place)?,
            _ => {
                let run = Run { rows, left };
                let found = with_held(alloc, store, elements, held, run, conditions, false)?;
                known_to_rise(found.as_slice());
                rows = after_element(alloc, store, element, found)?;
                left = Vec::new(alloc);
                held = Vec::new(alloc);
            }
        }
    }
    let run = Run { rows, left };
    let found = with_held(alloc, store, elements, held, run, conditions, true)?;
    Ok(found)
}

// The rows of a run, joined with those of the elements at some places, which are held back with it, without some that conditions refuse. Now a pattern is
// looked up, now an element joined, as few rows are likely to come of it.
#[cycle(rows)]
fn with_held(
    alloc: Global,
    store: &Store,
    elements: &[Element],
    held: Vec<usize>,
    run: Run,
    conditions: &[Expr],
    is_last: bool,
) -> Result<Vec<Solution>, Memory>
    ensures { IfOk result (λ rows. spec.AreHeldRows conditions.now elements.now held.items store.now run rows.items) }
{
    let known = with_known(alloc, run.rows, run.left.as_slice(), conditions)?;
    known_to_rise(known.as_slice());
    // The first of the text stand last, since what is taken from the end of a list moves few others.
    let mut left = held;
    left.reverse();
    let mut more = Run {
        rows: known,
        left: run.left,
    };
    while !left.is_empty() {
        known_to_rise(more.rows.as_slice());
        match held_next(
            alloc,
            store,
            elements,
            left.as_slice(),
            more.left.as_slice(),
            more.rows.as_slice(),
            conditions,
        )? {
            None => more = with_next_of(alloc, store, more, conditions, false)?,
            Some(at) => {
                if let Some(element) = elements.get(left.remove(at)) {
                    let rows = joined_with(alloc, store, element, more.rows, conditions)?;
                    known_to_rise(rows.as_slice());
                    more = Run {
                        rows,
                        left: more.left,
                    };
                }
            }
        }
    }
    let rows = with_run(alloc, store, more.left, more.rows, conditions, is_last)?;
    Ok(rows)
}

// The rows after an element, without some that conditions refuse. A UNION whose triples are many for the rows before it is gone through for each of them by itself.
#[cycle(rows)]
fn joined_with(
    alloc: Global,
    store: &Store,
    element: &Element,
    before: Vec<Solution>,
    conditions: &[Expr],
) -> Result<Vec<Solution>, Memory>
    ensures { IfOk result (λ rows. spec.AreNearlyAfter conditions.now element.now store.now before.items rows.items) }
{
    match element {
        Element::Union(groups) => {
            if is_small(alloc, store, element, before.as_slice())? {
                let rows = row_by_row(alloc, store, element, before)?;
                return Ok(rows);
            }
            let found = alternatives(alloc, store, groups.as_slice(), conditions)?;
            let rows = join_with(alloc, before.as_slice(), found)?;
            Ok(rows)
        }
        _ => {
            let found = after_known(alloc, store, element, before, &[])?;
            Ok(found)
        }
    }
}

// The rows after an element, from those before it. An OPTIONAL, a UNION or a MINUS whose triples are many for these rows is gone through for each row by itself.
#[cycle(rows)]
fn after_element(
    alloc: Global,
    store: &Store,
    element: &Element,
    before: Vec<Solution>,
) -> Result<Vec<Solution>, Memory>
    ensures { IfOk result (λ rows. spec.AreAfter element.now store.now before.items rows.items) }
{
    if let Element::Optional(group) = element {
        if let Some(patterns) = run_under(alloc, store, group, before.len())? {
            return after_run(alloc, store, group, patterns, before);
        }
    }
    if is_small(alloc, store, element, before.as_slice())? {
        return row_by_row(alloc, store, element, before);
    }
    let rows = after_known(alloc, store, element, before, &[])?;
    Ok(rows)
}

// The same, row by row.
#[cycle(rows)]
fn row_by_row(
    alloc: Global,
    store: &Store,
    element: &Element,
    before: Vec<Solution>,
) -> Result<Vec<Solution>, Memory>
    ensures { IfOk result (λ rows. spec.AreAfter element.now store.now before.items rows.items) }
{
    let mut rows = Vec::new(alloc);
    for row in before {
        let mut more = after_row(alloc, store, element, row)?;
        rows.append(&mut more)?;
    }
    Ok(rows)
}

// The rows after an element, from one row.
#[cycle(rows)]
fn after_row(
    alloc: Global,
    store: &Store,
    element: &Element,
    row: Solution,
) -> Result<Vec<Solution>, Memory>
    ensures { IfOk result (λ rows. spec.AreAfter element.now store.now (row ∷ []) rows.items) }
{
    let known = known_of(alloc, &row)?;
    let before = alone(alloc, row)?;
    let rows = after_known(alloc, store, element, before, known.as_slice())?;
    Ok(rows)
}

// The rows after an element, from rows on each of which conditions hold.
#[cycle(rows)]
fn after_known(
    alloc: Global,
    store: &Store,
    element: &Element,
    before: Vec<Solution>,
    known: &[Expr],
) -> Result<Vec<Solution>, Memory>
    requires apart { spec.AreKnown known.now before.items }
    ensures { IfOk result (λ rows. spec.AreAfter element.now store.now before.items rows.items) }
{
    match element {
        Element::Triple(pattern) => {
            let rows = store.extend(alloc, pattern, before.as_slice())?;
            Ok(rows)
        }
        Element::Filter(_) => Ok(before),
        Element::Optional(group) => after_optional(alloc, store, group, before, known),
        Element::Union(groups) => {
            let found = alternatives(alloc, store, groups.as_slice(), known)?;
            let rows = join_with(alloc, before.as_slice(), found)?;
            Ok(rows)
        }
        Element::Minus(group) => {
            let found = rows_with(alloc, store, group, known)?;
            let rows = minus_with(alloc, before, found)?;
            Ok(rows)
        }
        Element::Bind { expr, name } => {
            let rows = extend(alloc, before.as_slice(), name, expr)?;
            Ok(rows)
        }
        Element::Values(inline) => {
            let found = inline_rows(alloc, inline)?;
            let rows = join_with(alloc, before.as_slice(), found)?;
            Ok(rows)
        }
        Element::Service {
            silent: _,
            iri: _,
            group: _,
        } => Ok(before),
    }
}

// The rows after an OPTIONAL, from rows on each of which conditions hold.
#[cycle(rows)]
fn after_optional(
    alloc: Global,
    store: &Store,
    group: &Group,
    before: Vec<Solution>,
    known: &[Expr],
) -> Result<Vec<Solution>, Memory>
    requires apart { spec.AreKnown known.now before.items }
    ensures { IfOk result (λ rows. spec.AreAfter (element.Optional group.now) store.now before.items rows.items) }
{
    let own = conditions_of(alloc, group)?;
    let conditions = both(alloc, own.as_slice(), known)?;
    let found = nearly(alloc, store, group, conditions.as_slice())?;
    let rows = left_join_with(alloc, before, found, own.as_slice())?;
    Ok(rows)
}

// The rows after an OPTIONAL of triple patterns and filters, which are looked up under the rows before it.
fn after_run(
    alloc: Global,
    store: &Store,
    group: &Group,
    patterns: Vec<Pattern>,
    before: Vec<Solution>,
) -> Result<Vec<Solution>, Memory>
    requires { IsRunOf group.now patterns.items }
    ensures { IfOk result (λ rows. spec.AreAfter (element.Optional group.now) store.now before.items rows.items) }
{
    let conditions = conditions_of(alloc, group)?;
    known_to_rise(before.as_slice());
    store.known();
    let ordered = in_order(alloc, store, patterns, before.as_slice())?;
    let rows = with_matches(
        alloc,
        store,
        before,
        ordered.as_slice(),
        conditions.as_slice(),
    )?;
    Ok(rows)
}

// The rows of groups, one after the other, without some that conditions from outside refuse.
#[cycle(rows)]
fn alternatives(
    alloc: Global,
    store: &Store,
    groups: &[Group],
    outside: &[Expr],
) -> Result<Vec<Solution>, Memory>
    ensures { IfOk result (λ rows. spec.AreAlternatives groups.now store.now outside.now rows.items) }
{
    let mut rows = Vec::new(alloc);
    for group in groups {
        let mut found = rows_with(alloc, store, group, outside)?;
        rows.append(&mut found)?;
    }
    Ok(rows)
}

// A row by itself.
fn alone(alloc: Global, row: Solution) -> Result<Vec<Solution>, Memory>
    ensures { IfOk result (λ rows. rows.items ≡ row ∷ []) }
{
    let mut rows = Vec::new(alloc);
    rows.push(row)?;
    Ok(rows)
}

/// What holds where a group's own filters do, conjunct by conjunct.
pub(crate) fn conditions_of(alloc: Global, group: &Group) -> Result<Vec<Expr>, Memory>
    ensures { IfOk result (λ conditions. spec.AreConditions group.now conditions.items) }
{
    let filters = filters_of(alloc, group)?;
    let conditions = conjuncts(alloc, filters.as_slice())?;
    Ok(conditions)
}

// A group's own filters.
fn filters_of(alloc: Global, group: &Group) -> Result<Vec<Expr>, Memory>
    ensures { IfOk result (λ filters. spec.AreFilters group.now filters.items) }
{
    let mut filters = Vec::new(alloc);
    for element in group.elements.as_slice() {
        add_filter(alloc, &mut filters, element)?;
    }
    Ok(filters)
}

// Adds the expression of a filter. Any other element adds nothing.
fn add_filter(alloc: Global, filters: &mut Vec<Expr>, element: &Element) -> Result<(), Memory>
    ensures { OnOk result (spec.AreMoreFilters element.now filters.old.items filters.new.items) }
{
    if let Element::Filter(expr) = element {
        filters.push(expr.copy(alloc)?)?;
    }
    Ok(())
}
