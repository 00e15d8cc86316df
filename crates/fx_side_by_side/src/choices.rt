//! Whether the next steps of one half of the runs are asked for beside those of the other, and over how many of the wires. No clause rests on it.
ghost use Rattle.std.specs.Prelude.{◌<◌, IsTrue, length};

use crate::steps::Turn;
use fx_algebra::{Row, Unit};
use fx_flows::FlowError;
use fx_terms::Items;

/// How many of so many runs stand in the first half.
pub(crate) fn half_of(runs: usize) -> usize
    requires { 1 < runs }
    ensures { (0 < result) × (result < runs) }
{
    runs - runs / 2
}

/// Whether the next steps of both halves of these runs wait less beside each other, where they share the wires, than one after the other, each over all wires.
pub(crate) fn waits_less_beside(
    runs: &[Items<Unit>],
    found: &[Result<Vec<Row>, FlowError>],
    turn: &Turn,
    wires: usize,
) -> bool
    ensures { IsTrue result → 1 < wires }
{
    if wires < 2 || runs.len() < 2 {
        return false;
    }
    let (first, others) = requests_of_halves(runs, found, turn);
    let used = best_of(first, others, wires);
    waits_beside(first, others, used, wires)
        < waits_of(first, wires).saturating_add(waits_of(others, wires))
}

/// How many of the wires the first half of these runs gets, so that both halves beside each other wait least.
pub(crate) fn wires_of_first(
    runs: &[Items<Unit>],
    found: &[Result<Vec<Row>, FlowError>],
    turn: &Turn,
    wires: usize,
) -> usize
    requires { (1 < length runs.now) × (1 < wires) }
    ensures { (0 < result) × (result < wires) }
{
    let (first, others) = requests_of_halves(runs, found, turn);
    best_of(first, others, wires)
}

// How many of the wires the first half gets, by the requests of both halves.
fn best_of(first: usize, others: usize, wires: usize) -> usize
    requires { 1 < wires }
    ensures { (0 < result) × (result < wires) }
{
    let mut best = 1;
    let mut least = usize::MAX;
    for used in 1..wires {
        let waits = waits_beside(first, others, used, wires);
        if waits < least {
            least = waits;
            best = used;
        }
    }
    best
}

fn waits_beside(first: usize, others: usize, used: usize, wires: usize) -> usize {
    waits_of(first, used).max(waits_of(others, wires.saturating_sub(used)))
}

// How many requests the next steps of both halves of these runs have.
fn requests_of_halves(
    runs: &[Items<Unit>],
    found: &[Result<Vec<Row>, FlowError>],
    turn: &Turn,
) -> (usize, usize)
    requires { 1 < length runs.now }
{
    let half = half_of(runs.len());
    let mut first: usize = 0;
    let mut others: usize = 0;
    for (at, (units, rows)) in runs.iter().zip(found).enumerate() {
        let requests = requests_of(units.as_slice(), rows, turn);
        if at < half {
            first = first.saturating_add(requests);
        } else {
            others = others.saturating_add(requests);
        }
    }
    (first, others)
}

// How many requests the next step of a run has: its batches for each member of its unit.
fn requests_of(units: &[Unit], found: &Result<Vec<Row>, FlowError>, turn: &Turn) -> usize {
    match (units.get(turn.step), found) {
        (Some(unit), Ok(rows)) => {
            waits_of(rows.len(), turn.block as usize).saturating_mul(unit.members.len())
        }
        _ => 0,
    }
}

// How many of so many stand one behind the other, where so many go side by side.
fn waits_of(all: usize, beside: usize) -> usize {
    if beside == 0 {
        return all;
    }
    all.saturating_add(beside - 1) / beside
}
