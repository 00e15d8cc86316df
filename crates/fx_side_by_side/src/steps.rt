//! Several runs, step by step: the next step of each is asked for with those of the others.
ghost use Rattle.std.specs.Prelude.{◌≡◌, ◌+◌, ◌-◌, ◌<◌, ◌≤◌, ◌++◌, ◌∷◌, [], All, List, length, map, true};
ghost use Rattle.std.specs.Thread.{IsSync};
ghost use Rattle.fx_algebra.specs.declared.units.Unit.{Unit as UnitParts};
ghost use Rattle.fx_outside.specs.Endpoints.{is_sendable};
ghost use Rattle.fx_spelling.specs.Units.{IsFit};
ghost use Rattle.fx_traffic.specs.Gains.{seen};
ghost use Rattle.fx_flows.specs.Flows.{rows_in};
ghost use Rattle.fx_side_by_side.specs.SideBySide.{CanAsk, RunsFlowedOver};
ghost use Rattle.fx_side_by_side.specs.Steps.{StepsFlowedOver, begins};
ghost use Rattle.fx_side_by_side.specs.Steps as spec;

use crate::choices::{half_of, waits_less_beside, wires_of_first};
use fx_algebra::{Row, Unit};
use fx_flows::{FlowError, run_rows};
use fx_outside::Endpoint;
use fx_terms::Items;
use fx_wire::Wire;
use std::alloc::Global;
use std::mem;
use std::sync::Wait;
use std::thread::{Threads, join_mut};

/// Which step of each run is asked for, counted from 0, and how many rows a batch may have.
#[derive(Clone, Copy)]
pub(crate) struct Turn {
    pub(crate) step: usize,
    pub(crate) block: u64,
}

/// The rows behind all units of each of these runs, or why there are none, in place of those that they begin with: step by step, all runs at the same.
pub(crate) fn ask_in_steps<R: Threads + Wait + Sync, W: Wire + Send>(
    rt: &R,
    alloc: Global,
    endpoints: &[Endpoint],
    runs: &[Items<Unit>],
    block: u64,
    found: &mut [Result<Vec<Row>, FlowError>],
    wires: &mut [W],
)
    requires wired { (0 < length wires.old) × (length wires.old ≤ 16) }
    requires sendable { All (λ e. is_sendable e ≡ true) endpoints.now }
    requires block { (0 < block) × (block ≤ 64) }
    requires runs { All (CanAsk (length endpoints.now)) runs.now }
    requires begun { map rows_in found.old ≡ begins runs.now }
    ensures { RunsFlowedOver (seen W.Wire wires.old wires.new)
        endpoints.now runs.now block (map rows_in found.new) }
{
    for step in 0..longest(runs) {
        ask_steps(
            rt,
            &alloc,
            endpoints,
            runs,
            &Turn { step, block },
            found,
            wires,
        );
    }
}

// How many units the longest of these runs has.
fn longest(runs: &[Items<Unit>]) -> usize
    ensures longest { All (λ (units : List UnitParts). length units ≤ result) runs.now }
    ensures some { 0 < result → 0 < length runs.now }
{
    let mut most = 0;
    for units in runs {
        most = units.len().max(most);
    }
    most
}

// The next step of each of these runs: over all wires where there is one run, and else of one half of them beside the other, or after the other, whichever waits less.
#[cycle(stepping)]
fn ask_steps<R: Threads + Wait + Sync, W: Wire + Send>(
    rt: &R,
    alloc: &Global,
    endpoints: &[Endpoint],
    runs: &[Items<Unit>],
    turn: &Turn,
    found: &mut [Result<Vec<Row>, FlowError>],
    wires: &mut [W],
)
    requires wired { (0 < length wires.old) × (length wires.old ≤ 16) }
    requires sendable { All (λ e. is_sendable e ≡ true) endpoints.now }
    requires block { (0 < turn.now.block) × (turn.now.block ≤ 64) }
    requires runs { All (CanAsk (length endpoints.now)) runs.now }
    requires some { (0 < length runs.now) × (length found.old ≡ length runs.now) }
    ensures { StepsFlowedOver (seen W.Wire wires.old wires.new)
        endpoints.now turn.now.step turn.now.block runs.now (map rows_in found.old) (map rows_in found.new) }
{
    if runs.len() < 2 {
        return ask_next(
            rt,
            *alloc,
            endpoints,
            runs[0].as_slice(),
            turn,
            &mut found[0],
            wires,
        );
    }
    if waits_less_beside(runs, found, turn, wires.len()) {
        return ask_beside(rt, alloc, endpoints, runs, turn, found, wires);
    }
    let (first, others) = halves_of(runs, endpoints);
    let (ours, theirs) = found.split_at_mut(first.len());
    ask_steps(rt, alloc, endpoints, first, turn, ours, wires);
    ask_steps(rt, alloc, endpoints, others, turn, theirs, wires);
}

// The next step of each of these runs: with one half of them, and some of the wires, in a thread of its own.
#[cycle(stepping)]
fn ask_beside<R: Threads + Wait + Sync, W: Wire + Send>(
    rt: &R,
    alloc: &Global,
    endpoints: &[Endpoint],
    runs: &[Items<Unit>],
    turn: &Turn,
    found: &mut [Result<Vec<Row>, FlowError>],
    wires: &mut [W],
)
    requires wired { (1 < length wires.old) × (length wires.old ≤ 16) }
    requires sendable { All (λ e. is_sendable e ≡ true) endpoints.now }
    requires block { (0 < turn.now.block) × (turn.now.block ≤ 64) }
    requires runs { All (CanAsk (length endpoints.now)) runs.now }
    requires some { (1 < length runs.now) × (length found.old ≡ length runs.now) }
    ensures { StepsFlowedOver (seen W.Wire wires.old wires.new)
        endpoints.now turn.now.step turn.now.block runs.now (map rows_in found.old) (map rows_in found.new) }
{
    let used = wires_of_first(runs, found, turn, wires.len());
    let (first, others) = halves_of(runs, endpoints);
    let (ours, theirs) = found.split_at_mut(first.len());
    let (left, right) = wires.split_at_mut(used);
    join_mut(
        rt,
        &mut ||
            requires sync { IsSync R.row }
            requires wired { (0 < length left.now) × (length left.now ≤ 16) }
            requires sendable { All (λ e. is_sendable e ≡ true) endpoints.now }
            requires block { (0 < turn.now.block) × (turn.now.block ≤ 64) }
            requires runs { All (CanAsk (length endpoints.now)) first.now }
            requires some { (0 < length first.now) × (length ours.now ≡ length first.now) }
            ensures { StepsFlowedOver (seen W.Wire left.entry.now left.exit.now)
                endpoints.entry.now turn.entry.now.step turn.entry.now.block first.entry.now (map rows_in ours.entry.now) (map rows_in ours.exit.now) }
        { ask_steps(rt, alloc, endpoints, first, turn, ours, left) },
        &mut ||
            requires sync { IsSync R.row }
            requires wired { (0 < length right.now) × (length right.now ≤ 16) }
            requires sendable { All (λ e. is_sendable e ≡ true) endpoints.now }
            requires block { (0 < turn.now.block) × (turn.now.block ≤ 64) }
            requires runs { All (CanAsk (length endpoints.now)) others.now }
            requires some { (0 < length others.now) × (length theirs.now ≡ length others.now) }
            ensures { StepsFlowedOver (seen W.Wire right.entry.now right.exit.now)
                endpoints.entry.now turn.entry.now.step turn.entry.now.block others.entry.now (map rows_in theirs.entry.now) (map rows_in theirs.exit.now) }
        { ask_steps(rt, alloc, endpoints, others, turn, theirs, right) },
    );
    both_ended();
}

// Nothing is left to do. What both halves left is known to the proof only where a call follows theirs.
fn both_ended() {}

// One half of these runs, and the other.
fn halves_of<'a>(
    runs: &'a [Items<Unit>],
    _endpoints: &[Endpoint],
) -> (&'a [Items<Unit>], &'a [Items<Unit>])
    requires some { 1 < length runs.now }
    requires runs { All (CanAsk (length _endpoints.now)) runs.now }
    ensures whole { runs.now ≡ result.0.now ++ result.1.now }
    ensures some { (0 < length result.0.now) × (0 < length result.1.now) × (length result.0.now + length result.1.now ≡ length runs.now) }
    ensures first { All (CanAsk (length _endpoints.now)) result.0.now }
    ensures others { All (CanAsk (length _endpoints.now)) result.1.now }
{
    runs.split_at(half_of(runs.len()))
}

// The next step of one run. One that was refused stays so.
fn ask_next<R: Threads + Wait + Sync, W: Wire + Send>(
    rt: &R,
    alloc: Global,
    endpoints: &[Endpoint],
    units: &[Unit],
    turn: &Turn,
    found: &mut Result<Vec<Row>, FlowError>,
    wires: &mut [W],
)
    requires wired { (0 < length wires.old) × (length wires.old ≤ 16) }
    requires sendable { All (λ e. is_sendable e ≡ true) endpoints.now }
    requires block { (0 < turn.now.block) × (turn.now.block ≤ 64) }
    requires units { CanAsk (length endpoints.now) units.now }
    ensures { StepsFlowedOver (seen W.Wire wires.old wires.new)
        endpoints.now turn.now.step turn.now.block (units.now ∷ []) (rows_in found.old ∷ []) (rows_in found.new ∷ []) }
{
    match mem::replace(found, Err(FlowError::Memory)) {
        Err(why) => *found = Err(why),
        Ok(rows) => {
            let unit = unit_at(units, turn.step, endpoints);
            *found = run_rows(rt, alloc, endpoints, unit, rows, turn.block, wires);
        }
    }
}

// The unit of this number, where there is one.
fn unit_at<'a>(units: &'a [Unit], step: usize, _endpoints: &[Endpoint]) -> &'a [Unit]
    requires { CanAsk (length _endpoints.now) units.now }
    ensures unit { result.now ≡ spec.unit_at step units.now }
    ensures fit { All IsFit result.now }
    ensures within { All (λ u. All (λ at. at < length _endpoints.now) u.members) result.now }
{
    let (_before, left) = units.split_at(step.min(units.len()));
    let (unit, _behind) = left.split_at(left.len().min(1));
    unit
}
