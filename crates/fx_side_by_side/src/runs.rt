//! Runs that take no rows, asked for together.
ghost use Rattle.std.specs.Prelude.{◌≡◌, ◌<◌, ◌≤◌, All, IfOk, length, map, true};
ghost use Rattle.fx_algebra.specs.Groups.{one_empty};
ghost use Rattle.fx_outside.specs.Endpoints.{is_sendable};
ghost use Rattle.fx_steps.specs.Steps.{numbered};
ghost use Rattle.fx_traffic.specs.Gains.{seen};
ghost use Rattle.fx_flows.specs.Flows.{rows_in};
ghost use Rattle.fx_side_by_side.specs.SideBySide.{CanAsk, SideBySideOver, results_in};
ghost use Rattle.fx_side_by_side.specs.Steps.{begins};

use crate::steps::ask_in_steps;
use fx_algebra::{Row, Solution, Unit};
use fx_flows::FlowError;
use fx_outside::Endpoint;
use fx_terms::{Items, Memory};
use fx_wire::Wire;
use std::alloc::Global;
use std::sync::Wait;
use std::thread::Threads;

/// The rows behind each of several runs, or why there are none, in the order of the runs. Each begins with the one empty solution, so none waits for another: the first step of all is asked for,
/// then the second, and so on, and the requests of a step of several runs are under way at once where that waits less than one run after the other. A run that is refused stops none of the others.
///
/// What each gives is what `run_flow` would give of it alone: where the wires tell the graphs of its units' members, the rows are those of its steps over their union, in some order, and what the wires
/// gained falls into a share for each run, texts of batches of its units, none of which is sent twice. `Memory`, where there is none for the list of the results.
pub fn run_side_by_side<R: Threads + Wait + Sync, W: Wire + Send>(
    rt: &R,
    alloc: Global,
    endpoints: &[Endpoint],
    runs: &[Items<Unit>],
    block: u32,
    wires: &mut [W],
) -> Result<Vec<Result<Items<Row>, FlowError>>, Memory>
    requires wired { (0 < length wires.old) × (length wires.old ≤ 16) }
    requires sendable { All (λ e. is_sendable e ≡ true) endpoints.now }
    requires block { (0 < block) × (block ≤ 64) }
    requires runs { All (CanAsk (length endpoints.now)) runs.now }
    ensures { SideBySideOver (seen W.Wire wires.old wires.new)
        endpoints.now runs.now block (results_in result) }
{
    let mut found = begun(alloc, runs)?;
    ask_in_steps(
        rt,
        alloc,
        endpoints,
        runs,
        block as u64,
        found.as_mut_slice(),
        wires,
    );
    in_items(alloc, found)
}

// Each of these runs with the one row that it begins with.
fn begun(alloc: Global, runs: &[Items<Unit>]) -> Result<Vec<Result<Vec<Row>, FlowError>>, Memory>
    ensures { IfOk result (λ found. map rows_in found.items ≡ begins runs.now) }
{
    let mut found = Vec::new(alloc);
    for _units in runs {
        let first = first_row(alloc)?;
        if found.push(Ok(first)).is_err() {
            return Err(Memory);
        }
    }
    Ok(found)
}

// The row of the one empty solution.
fn first_row(alloc: Global) -> Result<Vec<Row>, Memory>
    ensures { IfOk result (λ rows. rows.items ≡ numbered 0 one_empty) }
{
    let mut rows = Vec::new(alloc);
    let first = Row {
        origin: 0,
        solution: Solution::empty(alloc),
    };
    if rows.push(first).is_err() {
        return Err(Memory);
    }
    Ok(rows)
}

// The same results, with lists of rows.
fn in_items(
    alloc: Global,
    found: Vec<Result<Vec<Row>, FlowError>>,
) -> Result<Vec<Result<Items<Row>, FlowError>>, Memory>
    ensures { IfOk result (λ all. all.items ≡ map rows_in found.items) }
{
    let mut all = Vec::new(alloc);
    for one in found {
        if all.push(in_list(one)).is_err() {
            return Err(Memory);
        }
    }
    Ok(all)
}

fn in_list(found: Result<Vec<Row>, FlowError>) -> Result<Items<Row>, FlowError>
    ensures { result ≡ rows_in found }
{
    match found {
        Ok(rows) => Ok(Items::from_vec(rows)),
        Err(why) => Err(why),
    }
}
