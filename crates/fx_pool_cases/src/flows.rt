//! The rows behind the one unit of a run, asked for at port 8001 alone, over a wire that answers by a graph.
ghost use Rattle.std.specs.Prelude.{◌<◌, All, length};
ghost use Rattle.fx_spelling.specs.Units.{IsFit};

use crate::checks::{are_sendable, have_members};
use crate::faults::fault_text;
use fx_algebra::{Row, Solution, Unit};
use fx_bound_cases::batches::push_numbered;
use fx_bound_cases::runs::unit_of;
use fx_flows::{FlowError, run_flow};
use fx_member::{FaultWire, GraphWire};
use fx_notation::notation;
use fx_outside::Endpoint;
use fx_terms::Iri;
use fx_wire::Wire;
use fx_wire_cases::wires::endpoint;
use std::alloc::Global;
use std::sync::Wait;
use std::thread::Threads;

/// The rows, and how many exchanges the log has.
pub(crate) fn flowed<R: Threads + Wait + Sync>(
    rt: &R,
    alloc: Global,
    graph: &str,
    run: &str,
    rows: &str,
    block: &str,
) -> Option<String> {
    let mut wires = vec![in alloc; graph_wire(alloc, graph)?].ok()?;
    let rows = rows_behind(rt, alloc, run, rows, block, wires.as_mut_slice())?;
    let count = wires.as_slice().first()?.log().len();
    format!(in alloc; "{rows} log of {count}").ok()
}

/// The rows where the exchange of a number fails.
pub(crate) fn failing<R: Threads + Wait + Sync>(
    rt: &R,
    alloc: Global,
    graph: &str,
    run: &str,
    rows: &str,
    block: &str,
    fails: &str,
) -> Option<String> {
    let mut wires = vec![in alloc; fault_wire(alloc, graph, fails)?].ok()?;
    rows_behind(rt, alloc, run, rows, block, wires.as_mut_slice())
}

pub(crate) fn graph_wire(alloc: Global, graph: &str) -> Option<GraphWire> {
    let address = Iri::read(alloc, "http://127.0.0.1:8001/sparql").ok()?;
    let graph = notation::graph(alloc, graph)?;
    let graphs = vec![in alloc; (address, graph)].ok()?;
    GraphWire::new(alloc, graphs).ok()
}

pub(crate) fn fault_wire(alloc: Global, graph: &str, fails: &str) -> Option<FaultWire> {
    let address = Iri::read(alloc, "http://127.0.0.1:8001/sparql").ok()?;
    let fails_at = vec![in alloc; (address, fails.parse::<u64>().ok()?)].ok()?;
    FaultWire::new(alloc, graph_wire(alloc, graph)?, Vec::new(alloc), fails_at).ok()
}

fn rows_behind<R: Threads + Wait + Sync, W: Wire + Send>(
    rt: &R,
    alloc: Global,
    run: &str,
    rows: &str,
    block: &str,
    wires: &mut [W],
) -> Option<String> {
    let unit = unit_of(alloc, run)?;
    let units = vec![in alloc; unit.into_inner()].ok()?;
    let rows = notation::solutions(alloc, rows)?;
    let block = block.parse::<u32>().ok()?;
    rows_text(rt, alloc, units.as_slice(), rows.as_slice(), block, wires)
}

fn rows_text<R: Threads + Wait + Sync, W: Wire + Send>(
    rt: &R,
    alloc: Global,
    units: &[Unit],
    rows: &[Solution],
    block: u32,
    wires: &mut [W],
) -> Option<String>
    requires some { 0 < length units.now }
    requires fit { All IsFit units.now }
{
    let endpoints = vec![in alloc; endpoint(alloc, "8001")?].ok()?;
    match rows_over(rt, alloc, endpoints.as_slice(), units, rows, block, wires)? {
        Ok(rows) => numbered_text(alloc, rows.as_slice()),
        Err(error) => error_text(alloc, error),
    }
}

fn rows_over<R: Threads + Wait + Sync, W: Wire + Send>(
    rt: &R,
    alloc: Global,
    endpoints: &[Endpoint],
    units: &[Unit],
    rows: &[Solution],
    block: u32,
    wires: &mut [W],
) -> Option<Result<Vec<Row>, FlowError>>
    requires some { 0 < length units.now }
    requires fit { All IsFit units.now }
{
    if !are_sendable(endpoints) || !have_members(units, endpoints.len()) {
        return None;
    }
    if block == 0 || block > 64 || wires.len() != 1 {
        return None;
    }
    Some(run_flow(rt, alloc, endpoints, units, rows, block, wires))
}

pub(crate) fn numbered_text(alloc: Global, rows: &[Row]) -> Option<String> {
    let mut text = String::new(alloc);
    for row in rows {
        push_numbered(alloc, &mut text, row.origin, &row.solution)?;
    }
    Some(text)
}

pub(crate) fn error_text(alloc: Global, error: FlowError) -> Option<String> {
    match error {
        FlowError::Member { at } => format!(in alloc; "Member {at}").ok(),
        FlowError::BadReply { at, bad } => {
            let why = fault_text(alloc, bad.why)?;
            format!(in alloc; "BadReply {at} {why}").ok()
        }
        FlowError::RequestTooLong { at, length } => {
            format!(in alloc; "RequestTooLong {at} {length}").ok()
        }
        FlowError::Memory => None,
    }
}
