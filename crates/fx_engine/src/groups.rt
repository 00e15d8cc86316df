//! The rows of groups over the union of the graphs of endpoints (SPARQL 1.1 sections 18.2.2 and 18.6).
ghost use Rattle.std.specs.Prelude.{◌≡◌, ◌<◌, ◌≤◌, IfErr, IfOk, IsPermutation, [], ◌∷◌, length, true};
ghost use Rattle.fx_algebra.specs.Operators.{extend as extend_of, filtered as filtered_of, inline_rows as inline_rows_of, join as join_of, left_join as left_join_of, minus as minus_of};
ghost use Rattle.fx_steps.specs.Optionals.{optional_rows};
ghost use Rattle.fx_steps.specs.Steps.{solutions_of};
ghost use Rattle.fx_walks.specs.GroupsAsked as spec;
ghost use Rattle.fx_engine.specs.RowsAsked.{IsBehindService, found_in, solutions_in};
ghost use Rattle.fx_walks.specs.SectionSteps.{group_of, part_of, part_patterns};
ghost use Rattle.fx_engine.specs.Walks.{AlternativesAsked, CanBeWalked, ElementAsked, EndAsked, GroupAsked, OperatorAsked, RunAsked, UnfilteredAsked};
ghost use Rattle.fx_traffic.specs.Gains.{seen};

use crate::rows::RowsError;
use crate::together::{
    BehindRun, behind_run, is_one_empty, next_runs, run_and_minus, run_and_union, union_rows,
};
use crate::walks::Walk;
use fx_algebra::{Element, Expr, Group, Inline, Row, Solution};
use fx_flows::FlowError;
use fx_services::noted::one_row;
use fx_side_by_side::DoesFlows;
use fx_solutions::known_rows::known_to_rise;
use fx_solutions::{extend, filter, inline_rows, join, join_with, left_join_with, minus_with};
use fx_terms::{Memory, Name};
use fx_walks::optionals::or_themselves;
use fx_walks::sections::{filters_of, is_simple, keeps_run};
use fx_walks::tasks::{Task, Tasks};
use fx_wire::Wire;
use std::alloc::Global;

/// The rows of a group over the union of the endpoints' graphs, in some order.
///
/// The tasks are those of the query that the group is of, in text order, and `next` is the place of the group's first task; it is moved behind the
/// group's last. The group is gone through from left to right. The units of a run of triple patterns are asked for, from the rows before it on. A
/// nested group, a UNION, a MINUS and an OPTIONAL begin with the one empty solution, but the run of an OPTIONAL whose group holds triple
/// patterns and filters alone begins with the rows on its left. The rows before an occurrence of SERVICE are joined with those of its task, and nothing
/// is asked for. The filters of the group are applied at its end, those that went with units too.
///
/// The cause of a refusal is that of a batch of one of the tasks' units, or an occurrence of SERVICE was refused. No later run is asked for then.
#[cycle(rows)]
pub(crate) fn group_rows<H: DoesFlows<W>, W: Wire>(
    hands: &H,
    walk: &Walk<'_>,
    group: &Group,
    next: &mut usize,
    wires: &mut [W],
) -> Result<Vec<Solution>, RowsError>
    requires hands { H.flows hands.now }
    requires wired { (0 < length wires.old) × (length wires.old ≤ 16) }
    requires asked { CanBeWalked walk.now }
    ensures { GroupAsked (seen W.Wire wires.old wires.new) walk.now next.old next.new group.now (solutions_in result) }
{
    match unfiltered(hands, walk, group, next, wires) {
        Err(error) => Err(error),
        Ok(rows) => filtered(walk.alloc, group, rows),
    }
}

// The rows of a group before its filters, less some that these refuse.
#[cycle(rows)]
fn unfiltered<H: DoesFlows<W>, W: Wire>(
    hands: &H,
    walk: &Walk<'_>,
    group: &Group,
    next: &mut usize,
    wires: &mut [W],
) -> Result<Vec<Solution>, RowsError>
    requires hands { H.flows hands.now }
    requires wired { (0 < length wires.old) × (length wires.old ≤ 16) }
    requires asked { CanBeWalked walk.now }
    ensures { UnfilteredAsked (seen W.Wire wires.old wires.new) walk.now next.old next.new group.now (solutions_in result) }
{
    let Ok(mut rows) = one_row(walk.alloc) else {
        return Err(RowsError::Flow(FlowError::Memory));
    };
    let mut in_run = false;
    for element in group.elements.as_slice() {
        match after_element(hands, walk, element, rows, &mut in_run, next, wires) {
            Err(error) => return Err(error),
            Ok(found) => rows = found,
        }
    }
    end_run(hands, walk, rows, in_run, next, wires)
}

// The rows behind an element, from those before it. A run that a triple pattern is in goes on until an operator comes, or the group ends.
#[cycle(rows)]
fn after_element<H: DoesFlows<W>, W: Wire>(
    hands: &H,
    walk: &Walk<'_>,
    element: &Element,
    before: Vec<Solution>,
    in_run: &mut bool,
    next: &mut usize,
    wires: &mut [W],
) -> Result<Vec<Solution>, RowsError>
    requires hands { H.flows hands.now }
    requires wired { (0 < length wires.old) × (length wires.old ≤ 16) }
    requires asked { CanBeWalked walk.now }
    ensures { ElementAsked (seen W.Wire wires.old wires.new) walk.now next.old next.new in_run.old in_run.new element.now before.items
        (solutions_in result) }
{
    if is_pattern(element) {
        *in_run = true;
        return Ok(before);
    }
    if keeps_run(element) {
        return Ok(before);
    }
    if *in_run && is_one_empty(before.as_slice()) {
        match behind_run(element, walk.tasks, *next) {
            BehindRun::Union { groups, next: them } => {
                *in_run = false;
                *next = them.end;
                return run_and_union(hands, walk, groups, them.its, wires);
            }
            BehindRun::Minus { group, next: them } => {
                *in_run = false;
                *next = them.end;
                return run_and_minus(hands, walk, group, them.its, wires);
            }
            BehindRun::Apart => {}
        }
    }
    match end_run(hands, walk, before, *in_run, next, wires) {
        Err(error) => Err(error),
        Ok(rows) => {
            *in_run = false;
            after_operator(hands, walk, element, rows, next, wires)
        }
    }
}

// The rows behind an operator, from those before it.
#[cycle(rows)]
fn after_operator<H: DoesFlows<W>, W: Wire>(
    hands: &H,
    walk: &Walk<'_>,
    element: &Element,
    before: Vec<Solution>,
    next: &mut usize,
    wires: &mut [W],
) -> Result<Vec<Solution>, RowsError>
    requires hands { H.flows hands.now }
    requires wired { (0 < length wires.old) × (length wires.old ≤ 16) }
    requires asked { CanBeWalked walk.now }
    ensures { OperatorAsked (seen W.Wire wires.old wires.new) walk.now next.old next.new element.now before.items (solutions_in result) }
{
    match element {
        Element::Triple(_) => Ok(before),
        Element::Filter(_) => Ok(before),
        Element::Optional(group) => { optional(hands, walk, group, before, next, wires) }
        Element::Union(groups) => {
            match alternatives(hands, walk, groups.as_slice(), next, wires) {
                Err(error) => Err(error),
                Ok(found) => joined(walk.alloc, before.as_slice(), found),
            }
        }
        Element::Minus(group) => {
            match group_rows(hands, walk, group, next, wires) {
                Err(error) => Err(error),
                Ok(found) => lessened(walk.alloc, before, found),
            }
        }
        Element::Bind { expr, name } => extended(walk.alloc, before.as_slice(), name, expr),
        Element::Values(inline) => with_inline(walk.alloc, before.as_slice(), inline),
        Element::Service {
            silent: _,
            iri: _,
            group: _,
        } => after_service(walk.alloc, before.as_slice(), walk.tasks, next),
    }
}

// The rows behind an OPTIONAL, from those before it.
#[cycle(rows)]
fn optional<H: DoesFlows<W>, W: Wire>(
    hands: &H,
    walk: &Walk<'_>,
    group: &Group,
    before: Vec<Solution>,
    next: &mut usize,
    wires: &mut [W],
) -> Result<Vec<Solution>, RowsError>
    requires hands { H.flows hands.now }
    requires wired { (0 < length wires.old) × (length wires.old ≤ 16) }
    requires asked { CanBeWalked walk.now }
    ensures { OperatorAsked (seen W.Wire wires.old wires.new) walk.now next.old next.new (Element.Optional group.now) before.items (solutions_in result) }
{
    if is_simple(group) {
        return optional_run(hands, walk, group, before, next, wires);
    }
    match unfiltered(hands, walk, group, next, wires) {
        Err(error) => Err(error),
        Ok(found) => left_joined(walk.alloc, before, found, group),
    }
}

// The rows of groups, one after the other.
#[cycle(rows)]
fn alternatives<H: DoesFlows<W>, W: Wire>(
    hands: &H,
    walk: &Walk<'_>,
    groups: &[Group],
    next: &mut usize,
    wires: &mut [W],
) -> Result<Vec<Solution>, RowsError>
    requires hands { H.flows hands.now }
    requires wired { (0 < length wires.old) × (length wires.old ≤ 16) }
    requires asked { CanBeWalked walk.now }
    ensures { AlternativesAsked (seen W.Wire wires.old wires.new) walk.now next.old next.new groups.now (solutions_in result) }
{
    if groups.len() > 1 {
        if let Some(them) = next_runs(groups, 0, walk.tasks, *next) {
            *next = them.end;
            return union_rows(hands, walk, groups, them.its, wires);
        }
    }
    let mut rows = Vec::new(walk.alloc);
    for group in groups {
        match group_rows(hands, walk, group, next, wires) {
            Err(error) => return Err(error),
            Ok(mut found) => {
                if rows.append(&mut found).is_err() {
                    return Err(RowsError::Flow(FlowError::Memory));
                }
            }
        }
    }
    Ok(rows)
}

// The rows behind an OPTIONAL whose group is one run, which begins with the rows before it.
fn optional_run<H: DoesFlows<W>, W: Wire>(
    hands: &H,
    walk: &Walk<'_>,
    group: &Group,
    before: Vec<Solution>,
    next: &mut usize,
    wires: &mut [W],
) -> Result<Vec<Solution>, RowsError>
    requires hands { H.flows hands.now }
    requires wired { (0 < length wires.old) × (length wires.old ≤ 16) }
    requires asked { CanBeWalked walk.now }
    requires simple { (group_of group.now).is_simple ≡ true }
    ensures { OperatorAsked (seen W.Wire wires.old wires.new) walk.now next.old next.new (Element.Optional group.now) before.items (solutions_in result) }
{
    known_to_rise(before.as_slice());
    if !has_pattern(group) {
        return filters_alone(walk.alloc, before, group);
    }
    match after_run(hands, walk, before.as_slice(), next, wires) {
        Err(error) => Err(error),
        Ok(found) => with_optional(walk.alloc, group, before, found),
    }
}

// What comes of the run whose task is next, from these rows on: they are numbered from 0. Where one of its patterns has no source,
// nothing does, and nothing is asked for; nor is it behind an occurrence of SERVICE that was refused.
fn after_run<H: DoesFlows<W>, W: Wire>(
    hands: &H,
    walk: &Walk<'_>,
    rows: &[Solution],
    next: &mut usize,
    wires: &mut [W],
) -> Result<Vec<Row>, RowsError>
    requires hands { H.flows hands.now }
    requires wired { (0 < length wires.old) × (length wires.old ≤ 16) }
    requires asked { CanBeWalked walk.now }
    ensures { RunAsked (seen W.Wire wires.old wires.new) walk.now next.old next.new rows.now (found_in result) }
{
    if *next >= walk.tasks.len() {
        return Ok(Vec::new(walk.alloc));
    }
    let front = walk.tasks.front();
    if *next >= front.len() {
        return Err(RowsError::Refused);
    }
    let task = &front[*next];
    *next += 1;
    match task {
        Task::Run { units } => {
            match hands.run_flow(
                walk.alloc,
                walk.endpoints,
                units.as_slice(),
                rows,
                walk.block,
                wires,
            ) {
                Err(error) => Err(RowsError::Flow(error)),
                Ok(found) => Ok(found),
            }
        }
        Task::EmptyRun => Ok(Vec::new(walk.alloc)),
        Task::Service { rows: _ } => Ok(Vec::new(walk.alloc)),
        Task::Refused => Ok(Vec::new(walk.alloc)),
    }
}

// The rows behind the run that ends here, if there is one.
fn end_run<H: DoesFlows<W>, W: Wire>(
    hands: &H,
    walk: &Walk<'_>,
    before: Vec<Solution>,
    in_run: bool,
    next: &mut usize,
    wires: &mut [W],
) -> Result<Vec<Solution>, RowsError>
    requires hands { H.flows hands.now }
    requires wired { (0 < length wires.old) × (length wires.old ≤ 16) }
    requires asked { CanBeWalked walk.now }
    ensures { EndAsked (seen W.Wire wires.old wires.new) walk.now next.old next.new in_run before.items (solutions_in result) }
{
    if !in_run {
        return Ok(before);
    }
    known_to_rise(before.as_slice());
    match after_run(hands, walk, before.as_slice(), next, wires) {
        Err(error) => Err(error),
        Ok(found) => solutions(walk.alloc, found),
    }
}

// ---- without requests

// The rows behind an occurrence of SERVICE whose task is next, from those before it: these with its rows, unless it was refused.
fn after_service(
    alloc: Global,
    before: &[Solution],
    tasks: &Tasks,
    next: &mut usize,
) -> Result<Vec<Solution>, RowsError>
    ensures { IsBehindService tasks.now next.old next.new before.now (solutions_in result) }
{
    let tasks = tasks.all();
    if *next >= tasks.len() {
        return Ok(Vec::new(alloc));
    }
    let task = &tasks[*next];
    *next += 1;
    match task {
        Task::Run { units: _ } => Ok(Vec::new(alloc)),
        Task::EmptyRun => Ok(Vec::new(alloc)),
        Task::Service { rows } => with_rows(alloc, before, rows.as_slice()),
        Task::Refused => Err(RowsError::Refused),
    }
}

// Whether an element is a triple pattern.
fn is_pattern(element: &Element) -> bool
    ensures { result ≡ spec.is_run (part_patterns (part_of element.now)) }
{
    match element {
        Element::Triple(_) => true,
        Element::Filter(_) => false,
        Element::Optional(_) => false,
        Element::Union(_) => false,
        Element::Minus(_) => false,
        Element::Bind { expr: _, name: _ } => false,
        Element::Values(_) => false,
        Element::Service {
            silent: _,
            iri: _,
            group: _,
        } => false,
    }
}

// Whether a group has a triple pattern of its own.
pub(crate) fn has_pattern(group: &Group) -> bool
    ensures { result ≡ spec.is_run (spec.own_patterns group.now) }
{
    for element in group.elements.as_slice() {
        if is_pattern(element) {
            return true;
        }
    }
    false
}

// The solutions of rows.
fn solutions(alloc: Global, rows: Vec<Row>) -> Result<Vec<Solution>, RowsError>
    ensures given { IfOk result (λ solutions. solutions.items ≡ solutions_of rows.items) }
    ensures memory { IfErr result (λ e. e ≡ RowsError.Flow FlowError.Memory) }
{
    let mut solutions = Vec::new(alloc);
    for row in rows {
        if solutions.push(row.solution).is_err() {
            return Err(RowsError::Flow(FlowError::Memory));
        }
    }
    Ok(solutions)
}

// The rows on which the filters of a group hold.
pub(crate) fn filtered(
    alloc: Global,
    group: &Group,
    rows: Vec<Solution>,
) -> Result<Vec<Solution>, RowsError>
    ensures given { IfOk result (λ kept. kept.items ≡ filtered_of (group_of group.now).filters rows.items) }
    ensures memory { IfErr result (λ e. e ≡ RowsError.Flow FlowError.Memory) }
{
    let filters = filters_of(alloc, group)?;
    Ok(filter(alloc, rows, filters.as_slice())?)
}

pub(crate) fn joined(
    alloc: Global,
    before: &[Solution],
    found: Vec<Solution>,
) -> Result<Vec<Solution>, RowsError>
    ensures given { IfOk result (λ rows. IsPermutation (join_of before.now found.items) rows.items) }
    ensures memory { IfErr result (λ e. e ≡ RowsError.Flow FlowError.Memory) }
{
    Ok(join_with(alloc, before, found)?)
}

// The join with rows that are kept.
fn with_rows(
    alloc: Global,
    before: &[Solution],
    found: &[Solution],
) -> Result<Vec<Solution>, RowsError>
    ensures given { IfOk result (λ rows. IsPermutation (join_of before.now found.now) rows.items) }
    ensures memory { IfErr result (λ e. e ≡ RowsError.Flow FlowError.Memory) }
{
    Ok(join(alloc, before, found)?)
}

pub(crate) fn lessened(
    alloc: Global,
    before: Vec<Solution>,
    found: Vec<Solution>,
) -> Result<Vec<Solution>, RowsError>
    ensures given { IfOk result (λ rows. rows.items ≡ minus_of before.items found.items) }
    ensures memory { IfErr result (λ e. e ≡ RowsError.Flow FlowError.Memory) }
{
    Ok(minus_with(alloc, before, found)?)
}

fn extended(
    alloc: Global,
    before: &[Solution],
    name: &Name,
    expr: &Expr,
) -> Result<Vec<Solution>, RowsError>
    ensures given { IfOk result (λ rows. rows.items ≡ extend_of before.now name.now expr.now) }
    ensures memory { IfErr result (λ e. e ≡ RowsError.Flow FlowError.Memory) }
{
    Ok(extend(alloc, before, name, expr)?)
}

fn with_inline(
    alloc: Global,
    before: &[Solution],
    inline: &Inline,
) -> Result<Vec<Solution>, RowsError>
    ensures given { IfOk result (λ rows. IsPermutation (join_of before.now (inline_rows_of inline.now)) rows.items) }
    ensures memory { IfErr result (λ e. e ≡ RowsError.Flow FlowError.Memory) }
{
    joined(alloc, before, inline_rows(alloc, inline)?)
}

// The left join, with the filters of a group as its conditions.
fn left_joined(
    alloc: Global,
    before: Vec<Solution>,
    found: Vec<Solution>,
    group: &Group,
) -> Result<Vec<Solution>, RowsError>
    ensures given { IfOk result (λ rows. IsPermutation (left_join_of before.items found.items (group_of group.now).filters) rows.items) }
    ensures memory { IfErr result (λ e. e ≡ RowsError.Flow FlowError.Memory) }
{
    let filters = filters_of(alloc, group)?;
    Ok(left_join_with(alloc, before, found, filters.as_slice())?)
}

// The left join with the one empty solution, for an OPTIONAL that has filters alone.
fn filters_alone(
    alloc: Global,
    before: Vec<Solution>,
    group: &Group,
) -> Result<Vec<Solution>, RowsError>
    ensures given { IfOk result (λ rows. IsPermutation (left_join_of before.items ([] ∷ []) (group_of group.now).filters) rows.items) }
    ensures memory { IfErr result (λ e. e ≡ RowsError.Flow FlowError.Memory) }
{
    left_joined(alloc, before, one_row(alloc)?, group)
}

// The rows before an OPTIONAL with what its run has for each of them, or by themselves.
fn with_optional(
    alloc: Global,
    group: &Group,
    before: Vec<Solution>,
    found: Vec<Row>,
) -> Result<Vec<Solution>, RowsError>
    ensures given { IfOk result (λ rows. rows.items ≡ optional_rows (group_of group.now).filters 0 before.items found.items) }
    ensures memory { IfErr result (λ e. e ≡ RowsError.Flow FlowError.Memory) }
{
    let filters = filters_of(alloc, group)?;
    Ok(or_themselves(alloc, before, found, filters.as_slice())?)
}
