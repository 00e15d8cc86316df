//! The rows behind several runs of one unit each, asked for together at port 8001 alone, over wires that answer by a graph.
ghost use Rattle.std.specs.Prelude.{◌<◌, ◌≤◌, All, IfSome, length};
ghost use Rattle.fx_side_by_side.specs.SideBySide.{CanAsk};

use crate::checks::{are_sendable, have_members};
use crate::flows::{error_text, fault_wire, graph_wire, numbered_text};
use fx_algebra::{Row, Unit};
use fx_bound_cases::runs::unit_of;
use fx_flows::FlowError;
use fx_outside::Endpoint;
use fx_side_by_side::run_side_by_side;
use fx_terms::Items;
use fx_wire::Wire;
use fx_wire_cases::wires::endpoint;
use std::alloc::Global;
use std::sync::Wait;
use std::thread::Threads;

/// The rows of each run, and how many exchanges the log has, over one wire.
pub(crate) fn together<R: Threads + Wait + Sync>(
    rt: &R,
    alloc: Global,
    graph: &str,
    runs: &[&str],
) -> Option<String> {
    let mut wires = vec![in alloc; graph_wire(alloc, graph)?].ok()?;
    let texts = texts_of(rt, alloc, runs, wires.as_mut_slice())?;
    let count = wires.as_slice().first()?.log().len();
    format!(in alloc; "{texts} log of {count}").ok()
}

/// The rows of each run over two wires.
pub(crate) fn beside<R: Threads + Wait + Sync>(
    rt: &R,
    alloc: Global,
    graph: &str,
    runs: &[&str],
) -> Option<String> {
    let mut wires = vec![in alloc; graph_wire(alloc, graph)?, graph_wire(alloc, graph)?].ok()?;
    texts_of(rt, alloc, runs, wires.as_mut_slice())
}

/// The rows of each run over one wire, whose exchange of a number fails.
pub(crate) fn failing<R: Threads + Wait + Sync>(
    rt: &R,
    alloc: Global,
    graph: &str,
    fails: &str,
    runs: &[&str],
) -> Option<String> {
    let mut wires = vec![in alloc; fault_wire(alloc, graph, fails)?].ok()?;
    texts_of(rt, alloc, runs, wires.as_mut_slice())
}

fn texts_of<R: Threads + Wait + Sync, W: Wire + Send>(
    rt: &R,
    alloc: Global,
    runs: &[&str],
    wires: &mut [W],
) -> Option<String> {
    let endpoints = vec![in alloc; endpoint(alloc, "8001")?].ok()?;
    let runs = runs_of(alloc, runs, endpoints.len())?;
    let found = found_over(rt, alloc, endpoints.as_slice(), runs.as_slice(), wires)?;
    let mut text = String::new(alloc);
    for rows in found {
        let one = result_text(alloc, rows)?;
        text.push_str(one.as_str()).ok()?;
        text.push('|').ok()?;
    }
    Some(text)
}

fn found_over<R: Threads + Wait + Sync, W: Wire + Send>(
    rt: &R,
    alloc: Global,
    endpoints: &[Endpoint],
    runs: &[Items<Unit>],
    wires: &mut [W],
) -> Option<Vec<Result<Items<Row>, FlowError>>>
    requires runs { All (CanAsk (length endpoints.now)) runs.now }
{
    if !are_sendable(endpoints) || wires.is_empty() || wires.len() > 2 {
        return None;
    }
    run_side_by_side(rt, alloc, endpoints, runs, 15, wires).ok()
}

fn runs_of(alloc: Global, texts: &[&str], count: usize) -> Option<Vec<Items<Unit>>>
    ensures { IfSome result (λ runs. All (CanAsk count) runs.items) }
{
    let mut runs = Vec::new(alloc);
    for text in texts {
        let run = run_of(alloc, text, count)?;
        if runs.push(run).is_err() {
            return None;
        }
    }
    Some(runs)
}

fn run_of(alloc: Global, text: &str, count: usize) -> Option<Items<Unit>>
    ensures { IfSome result (λ units. CanAsk count units) }
{
    let unit = unit_of(alloc, text)?;
    let units = vec![in alloc; unit.into_inner()].ok()?;
    if !have_members(units.as_slice(), count) {
        return None;
    }
    Some(Items::from_vec(units))
}

fn result_text(alloc: Global, found: Result<Items<Row>, FlowError>) -> Option<String> {
    match found {
        Ok(rows) => numbered_text(alloc, rows.as_slice()),
        Err(error) => error_text(alloc, error),
    }
}
