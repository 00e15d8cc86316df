//! Runs that take no rows, asked for together: those of a UNION's groups, and with them the run before it.
ghost use Rattle.std.specs.Prelude.{◌≡◌, ◌∷◌, ◌+◌, ◌<◌, ◌≤◌, All, Contains, IfErr, IfOk, IfSome, IsPermutation, IsTrue, List, [], true, ℕ, length, map};
ghost use Rattle.std.specs.List.{list_all};
ghost use Rattle.std.specs.Vec.Iter.{into_iter_items};
ghost use Rattle.fx_algebra.specs.Groups.{one_empty};
ghost use Rattle.fx_steps.specs.Steps.{solutions_of};
ghost use Rattle.fx_engine.specs.RowsAsked.{CanBeAsked, solutions_in};
ghost use Rattle.fx_engine.specs.Together as spec;
ghost use Rattle.fx_walks.specs.Tasks.{AreNext};
ghost use Rattle.fx_engine.specs.Walks.{BehindAsked, BothAsked, OneRunsAsked, TasksAsked};
ghost use Rattle.fx_traffic.specs.Gains.{seen};

use crate::groups::{filtered, has_pattern, joined, lessened};
use crate::rows::RowsError;
use crate::walks::Walk;
use fx_algebra::{Element, Group, Row, Solution, Unit};
use fx_flows::FlowError;
use fx_side_by_side::DoesFlows;
use fx_terms::{Items, Memory};
use fx_walks::sections::is_simple;
use fx_walks::tasks::{Task, Tasks};
use fx_wire::Wire;
use std::alloc::Global;
use std::slice::from_ref;
use std::vec::IntoIter;

// ---- which runs go together

/// Tasks that are next, and the place behind them.
#[derive(Clone, Copy)]
pub(crate) struct NextTasks<'a> {
    pub(crate) its: &'a [Task],
    pub(crate) end: usize,
}

/// An operator whose groups are asked for together with the run before it.
#[derive(Clone, Copy)]
pub(crate) enum BehindRun<'a> {
    Union {
        groups: &'a [Group],
        next: NextTasks<'a>,
    },
    Minus {
        group: &'a Group,
        next: NextTasks<'a>,
    },
    /// It isn't: its groups hold more than triple patterns and filters, or it has none, or an occurrence of SERVICE before them was refused.
    Apart,
}

/// What of the run before an operator and of the operator's groups goes together.
pub(crate) fn behind_run<'a>(element: &'a Element, tasks: &'a Tasks, next: usize) -> BehindRun<'a>
    ensures { spec.IsBehindRun element.now tasks.now next result }
{
    match element {
        Element::Union(groups) => match next_runs(groups.as_slice(), 1, tasks, next) {
            Some(next) => BehindRun::Union {
                groups: groups.as_slice(),
                next,
            },
            None => BehindRun::Apart,
        },
        Element::Minus(group) => match next_runs(from_ref(group), 1, tasks, next) {
            Some(next) => BehindRun::Minus { group, next },
            None => BehindRun::Apart,
        },
        Element::Triple(_) => BehindRun::Apart,
        Element::Filter(_) => BehindRun::Apart,
        Element::Optional(_) => BehindRun::Apart,
        Element::Bind { expr: _, name: _ } => BehindRun::Apart,
        Element::Values(_) => BehindRun::Apart,
        Element::Service {
            silent: _,
            iri: _,
            group: _,
        } => BehindRun::Apart,
    }
}

/// The tasks of groups, and of so many runs before them, if each of the groups is one run, and none of the tasks stands behind an occurrence of SERVICE that was refused.
pub(crate) fn next_runs<'a>(
    groups: &[Group],
    before: usize,
    tasks: &'a Tasks,
    next: usize,
) -> Option<NextTasks<'a>>
    requires { before ≤ 1 }
    ensures { IfSome result (λ it. spec.AreOneRuns tasks.now next (before + length groups.now) groups.now it.its.now it.end) }
{
    if !are_one_run(groups) {
        return None;
    }
    next_tasks(tasks, next, groups.len() + before)
}

// So many tasks that are next.
fn next_tasks(tasks: &Tasks, next: usize, count: usize) -> Option<NextTasks<'_>>
    ensures { IfSome result (λ it. AreNext tasks.now next count it.its.now it.end) }
{
    let front = tasks.front();
    if next > front.len() || count > front.len() - next {
        return None;
    }
    let (_, left) = front.split_at(next);
    let (its, _) = left.split_at(count);
    Some(NextTasks {
        its,
        end: next + count,
    })
}

// Whether each of the groups is one run.
fn are_one_run(groups: &[Group]) -> bool
    ensures { result ≡ list_all spec.is_one_run groups.now }
{
    for group in groups {
        if !is_one_run(group) {
            return false;
        }
    }
    true
}

// Whether a group holds triple patterns and filters alone, and a pattern at least.
fn is_one_run(group: &Group) -> bool
    ensures { result ≡ spec.is_one_run group.now }
{
    is_simple(group) && has_pattern(group)
}

/// Whether rows are the one empty solution.
pub(crate) fn is_one_empty(rows: &[Solution]) -> bool
    ensures { IsTrue result → rows.now ≡ one_empty }
{
    match rows {
        [only] => only.pairs().is_empty(),
        _ => false,
    }
}

// ---- their rows

/// The rows of groups of which each is one run, one after the other.
pub(crate) fn union_rows<H: DoesFlows<W>, W: Wire>(
    hands: &H,
    walk: &Walk<'_>,
    groups: &[Group],
    its: &[Task],
    wires: &mut [W],
) -> Result<Vec<Solution>, RowsError>
    requires hands { H.flows hands.now }
    requires wired { (0 < length wires.old) × (length wires.old ≤ 16) }
    requires asked { All (CanBeAsked (length walk.now.endpoints.now)) its.now }
    ensures { OneRunsAsked (seen W.Wire wires.old wires.new) walk.now groups.now its.now (solutions_in result) }
{
    match rows_together(hands, walk, its, wires) {
        Err(error) => Err(error),
        Ok(founds) => rows_of_runs(walk.alloc, groups, founds),
    }
}

/// The rows of a run that begins with the one empty solution, joined with those of a UNION behind it.
pub(crate) fn run_and_union<H: DoesFlows<W>, W: Wire>(
    hands: &H,
    walk: &Walk<'_>,
    groups: &[Group],
    its: &[Task],
    wires: &mut [W],
) -> Result<Vec<Solution>, RowsError>
    requires hands { H.flows hands.now }
    requires wired { (0 < length wires.old) × (length wires.old ≤ 16) }
    requires asked { All (CanBeAsked (length walk.now.endpoints.now)) its.now }
    ensures { BehindAsked (seen W.Wire wires.old wires.new) walk.now (Element.Union groups.now) groups.now its.now (solutions_in result) }
{
    match run_and_groups(hands, walk, groups, its, wires) {
        Err(error) => Err(error),
        Ok((rows, found)) => joined(walk.alloc, rows.as_slice(), found),
    }
}

/// The rows of a run that begins with the one empty solution, without those that a MINUS behind it removes.
pub(crate) fn run_and_minus<H: DoesFlows<W>, W: Wire>(
    hands: &H,
    walk: &Walk<'_>,
    group: &Group,
    its: &[Task],
    wires: &mut [W],
) -> Result<Vec<Solution>, RowsError>
    requires hands { H.flows hands.now }
    requires wired { (0 < length wires.old) × (length wires.old ≤ 16) }
    requires asked { All (CanBeAsked (length walk.now.endpoints.now)) its.now }
    ensures { BehindAsked (seen W.Wire wires.old wires.new) walk.now (Element.Minus group.now) (group.now ∷ []) its.now (solutions_in result) }
{
    match run_and_groups(hands, walk, from_ref(group), its, wires) {
        Err(error) => Err(error),
        Ok((rows, found)) => lessened(walk.alloc, rows, found),
    }
}

// The rows of a run that begins with the one empty solution, and those of groups behind it of which each is one run.
fn run_and_groups<H: DoesFlows<W>, W: Wire>(
    hands: &H,
    walk: &Walk<'_>,
    groups: &[Group],
    its: &[Task],
    wires: &mut [W],
) -> Result<(Vec<Solution>, Vec<Solution>), RowsError>
    requires hands { H.flows hands.now }
    requires wired { (0 < length wires.old) × (length wires.old ≤ 16) }
    requires asked { All (CanBeAsked (length walk.now.endpoints.now)) its.now }
    ensures { BothAsked (seen W.Wire wires.old wires.new) walk.now groups.now its.now (spec.both_in result) }
{
    match rows_together(hands, walk, its, wires) {
        Err(error) => Err(error),
        Ok(founds) => parted(walk.alloc, groups, founds),
    }
}

// The solutions of the first, and the rows of groups by the others.
fn parted(
    alloc: Global,
    groups: &[Group],
    founds: Vec<Items<Row>>,
) -> Result<(Vec<Solution>, Vec<Solution>), RowsError>
    ensures given { IfOk result (λ both. spec.AreParted groups.now founds.items both.0.items both.1.items) }
    ensures memory { IfErr result (λ e. e ≡ RowsError.Flow FlowError.Memory) }
{
    let mut founds = founds;
    if founds.is_empty() {
        return Ok((Vec::new(alloc), Vec::new(alloc)));
    }
    let first = founds.remove(0);
    let rows = solutions_back(alloc, first)?;
    let found = rows_of_runs(alloc, groups, founds)?;
    Ok((rows, found))
}

// The rows of groups of which each is one run, one after the other, by what was found for each.
fn rows_of_runs(
    alloc: Global,
    groups: &[Group],
    founds: Vec<Items<Row>>,
) -> Result<Vec<Solution>, RowsError>
    ensures given { IfOk result (λ rows. IsPermutation rows.items (spec.rows_of_runs groups.now founds.items)) }
    ensures memory { IfErr result (λ e. e ≡ RowsError.Flow FlowError.Memory) }
{
    let mut left = founds.into_iter();
    let mut rows = Vec::new(alloc);
    for group in groups {
        let Some(found) = left.next() else {
            return Ok(rows);
        };
        let mut more = rows_of_run(alloc, group, found)?;
        if rows.append(&mut more).is_err() {
            return Err(RowsError::Flow(FlowError::Memory));
        }
    }
    Ok(rows)
}

// The rows of a group that is one run, by what was found for it.
fn rows_of_run(alloc: Global, group: &Group, found: Items<Row>) -> Result<Vec<Solution>, RowsError>
    ensures given { IfOk result (λ rows. IsPermutation rows.items (spec.rows_of_one group.now found)) }
    ensures memory { IfErr result (λ e. e ≡ RowsError.Flow FlowError.Memory) }
{
    let rows = solutions_back(alloc, found)?;
    filtered(alloc, group, rows)
}

// The solutions of rows, the last first.
fn solutions_back(alloc: Global, found: Items<Row>) -> Result<Vec<Solution>, RowsError>
    ensures given { IfOk result (λ rows. IsPermutation rows.items (solutions_of found)) }
    ensures memory { IfErr result (λ e. e ≡ RowsError.Flow FlowError.Memory) }
{
    let mut left = found;
    let mut rows = Vec::new(alloc);
    for _ in 0..left.len() {
        let Some(row) = left.pop() else {
            return Ok(rows);
        };
        if rows.push(row.solution).is_err() {
            return Err(RowsError::Flow(FlowError::Memory));
        }
    }
    Ok(rows)
}

// ---- what is found for them

// What is found for each of these tasks, from the one empty solution on, or the first refusal in their order. Nothing is found for a task that is no run.
fn rows_together<H: DoesFlows<W>, W: Wire>(
    hands: &H,
    walk: &Walk<'_>,
    its: &[Task],
    wires: &mut [W],
) -> Result<Vec<Items<Row>>, RowsError>
    requires hands { H.flows hands.now }
    requires wired { (0 < length wires.old) × (length wires.old ≤ 16) }
    requires asked { All (CanBeAsked (length walk.now.endpoints.now)) its.now }
    ensures { TasksAsked (seen W.Wire wires.old wires.new) walk.now its.now (spec.founds_in result) }
{
    match runs_of(walk.alloc, its) {
        Err(Memory) => Err(RowsError::Flow(FlowError::Memory)),
        Ok(runs) => {
            match hands.run_side_by_side(
                walk.alloc,
                walk.endpoints,
                runs.as_slice(),
                walk.block,
                wires,
            ) {
                Err(Memory) => Err(RowsError::Flow(FlowError::Memory)),
                Ok(results) => founds_of(walk.alloc, its, results),
            }
        }
    }
}

// The units of those tasks that are runs.
fn runs_of(alloc: Global, its: &[Task]) -> Result<Vec<Items<Unit>>, Memory>
    ensures { IfOk result (λ runs. runs.items ≡ spec.runs_in its.now) }
{
    let mut runs = Vec::new(alloc);
    for task in its {
        if let Task::Run { units } = task {
            runs.push(copy_units(alloc, units.as_slice())?)?;
        }
    }
    Ok(runs)
}

fn copy_units(alloc: Global, units: &[Unit]) -> Result<Items<Unit>, Memory>
    ensures { IfOk result (λ copies. copies ≡ units.now) }
{
    let mut copies = Items::new(alloc);
    for unit in units {
        copies.push(unit.copy(alloc)?)?;
    }
    Ok(copies)
}

// What was found for each task, from what came of the runs among them in turn.
fn founds_of(
    alloc: Global,
    its: &[Task],
    results: Vec<Result<Items<Row>, FlowError>>,
) -> Result<Vec<Items<Row>>, RowsError>
    ensures { spec.AreFounds (spec.founds_by its.now results.items) (spec.founds_in result) }
{
    let mut left = results.into_iter();
    let mut founds = Vec::new(alloc);
    for task in its {
        match found_of(alloc, task, &mut left) {
            Err(error) => return Err(RowsError::Flow(error)),
            Ok(found) => {
                if founds.push(found).is_err() {
                    return Err(RowsError::Flow(FlowError::Memory));
                }
            }
        }
    }
    Ok(founds)
}

// What was found for a task. A run takes the next of what came.
fn found_of(
    alloc: Global,
    task: &Task,
    left: &mut IntoIter<Result<Items<Row>, FlowError>>,
) -> Result<Items<Row>, FlowError>
    ensures { spec.IsFoundBy task.now (into_iter_items left.old) (into_iter_items left.new) result }
{
    match task {
        Task::Run { units: _ } => match left.next() {
            Some(found) => found,
            None => Ok(Items::new(alloc)),
        },
        Task::EmptyRun => Ok(Items::new(alloc)),
        Task::Service { rows: _ } => Ok(Items::new(alloc)),
        Task::Refused => Ok(Items::new(alloc)),
    }
}
