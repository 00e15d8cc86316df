//! Runs asked for over one wire, unit after unit.
ghost use Rattle.std.specs.Prelude.{◌≡◌, ◌<◌, ◌≤◌, [], ◌∷◌, All, IfOk, IfSome, MatchOption, length, true};
ghost use Rattle.fx_algebra.specs.Groups.{one_empty};
ghost use Rattle.fx_outside.specs.Endpoints.{is_sendable};
ghost use Rattle.fx_spelling.specs.Units.{IsFit};
ghost use Rattle.fx_steps.specs.Steps.{numbered};
ghost use Rattle.fx_flows.specs.Flows.{rows_in};
ghost use Rattle.fx_flows.specs.RunFlows.{RunFlowedOver};
ghost use Rattle.fx_side_by_side.specs.SideBySide.{CanAsk, RunsFlowedOver, SideBySideOver, results_in};
ghost use Rattle.fx_traffic.specs.Gains.{seen};

use crate::batches::ask_unit;
use fx_algebra::{Row, Solution, Unit};
use fx_flows::FlowError;
use fx_outside::Endpoint;
use fx_terms::{Items, Memory};
use fx_wire::Wire;
use std::alloc::Global;

/// The rows behind the units of a run that begins with these solutions, numbered from 0.
pub(crate) fn ask_run<W: Wire>(
    alloc: Global,
    endpoints: &[Endpoint],
    units: &[Unit],
    rows: &[Solution],
    block: u32,
    wires: &mut [W],
) -> Result<Vec<Row>, FlowError>
    requires wired { 0 < length wires.old }
    requires sendable { All (λ e. is_sendable e ≡ true) endpoints.now }
    requires fit { All IsFit units.now }
    requires block { (0 < block) × (block ≤ 64) }
    requires within { All (λ u. All (λ at. at < length endpoints.now) u.members) units.now }
    ensures { RunFlowedOver (seen W.Wire wires.old wires.new) endpoints.now units.now block (numbered 0 rows.now) (rows_in result) }
{
    let Ok(first) = number(alloc, rows) else {
        return Err(FlowError::Memory);
    };
    ask_units(alloc, endpoints, units, first, block as u64, wires)
}

// Solutions as rows, numbered from 0.
fn number(alloc: Global, solutions: &[Solution]) -> Result<Vec<Row>, Memory>
    ensures { IfOk result (λ rows. rows.items ≡ numbered 0 solutions.now) }
{
    let mut rows = Vec::new(alloc);
    for solution in solutions {
        let row = Row {
            origin: rows.len() as u64,
            solution: solution.copy(alloc)?,
        };
        if rows.push(row).is_err() {
            return Err(Memory);
        }
    }
    Ok(rows)
}

// The rows behind units which these rows enter, unit by unit. Without units they are these rows.
fn ask_units<W: Wire>(
    alloc: Global,
    endpoints: &[Endpoint],
    units: &[Unit],
    rows: Vec<Row>,
    block: u64,
    wires: &mut [W],
) -> Result<Vec<Row>, FlowError>
    requires wired { 0 < length wires.old }
    requires sendable { All (λ e. is_sendable e ≡ true) endpoints.now }
    requires fit { All IsFit units.now }
    requires block { (0 < block) × (block ≤ 64) }
    requires within { All (λ u. All (λ at. at < length endpoints.now) u.members) units.now }
    ensures { RunFlowedOver (seen W.Wire wires.old wires.new) endpoints.now units.now block rows.items (rows_in result) }
{
    let mut left = units;
    let mut entering = rows;
    while let Some((unit, others)) = first_of(left, endpoints) {
        match ask_unit(alloc, endpoints, unit, entering.as_slice(), block, wires) {
            Err(error) => return Err(error),
            Ok(next) => entering = next,
        }
        left = others;
    }
    Ok(entering)
}

// The first of the units, and the others.
fn first_of<'a>(units: &'a [Unit], _endpoints: &[Endpoint]) -> Option<(&'a Unit, &'a [Unit])>
    requires fit { All IsFit units.now }
    requires within { All (λ u. All (λ at. at < length _endpoints.now) u.members) units.now }
    ensures whole { MatchOption result (units.now ≡ []) (λ p. units.now ≡ p.0.now ∷ p.1.now) }
    ensures fit { IfSome result (λ p. IsFit p.0.now × All IsFit p.1.now) }
    ensures within { IfSome result (λ p. All (λ at. at < length _endpoints.now) p.0.now.members
        × All (λ u. All (λ at. at < length _endpoints.now) u.members) p.1.now) }
{
    match units.split_first() {
        None => None,
        Some((unit, others)) => Some((unit, others)),
    }
}

/// The rows behind each of several runs, or why there are none, one run after another. Each begins with the one empty solution.
pub(crate) fn ask_each<W: Wire>(
    alloc: Global,
    endpoints: &[Endpoint],
    runs: &[Items<Unit>],
    block: u32,
    wires: &mut [W],
) -> Result<Vec<Result<Items<Row>, FlowError>>, Memory>
    requires wired { 0 < length wires.old }
    requires sendable { All (λ e. is_sendable e ≡ true) endpoints.now }
    requires block { (0 < block) × (block ≤ 64) }
    requires runs { All (CanAsk (length endpoints.now)) runs.now }
    ensures { SideBySideOver (seen W.Wire wires.old wires.new) endpoints.now runs.now block (results_in result) }
{
    let mut found = Vec::new(alloc);
    for units in runs {
        let one = ask_one(alloc, endpoints, units.as_slice(), block as u64, wires);
        if found.push(one).is_err() {
            return Err(Memory);
        }
    }
    Ok(found)
}

// One of several runs.
fn ask_one<W: Wire>(
    alloc: Global,
    endpoints: &[Endpoint],
    units: &[Unit],
    block: u64,
    wires: &mut [W],
) -> Result<Items<Row>, FlowError>
    requires wired { 0 < length wires.old }
    requires sendable { All (λ e. is_sendable e ≡ true) endpoints.now }
    requires block { (0 < block) × (block ≤ 64) }
    requires units { CanAsk (length endpoints.now) units.now }
    ensures { RunsFlowedOver (seen W.Wire wires.old wires.new) endpoints.now (units.now ∷ []) block (result ∷ []) }
{
    let Ok(first) = first_row(alloc) else {
        return Err(FlowError::Memory);
    };
    match ask_units(alloc, endpoints, units, first, block, wires) {
        Err(error) => Err(error),
        Ok(rows) => Ok(Items::from_vec(rows)),
    }
}

// The row of the one empty solution.
fn first_row(alloc: Global) -> Result<Vec<Row>, Memory>
    ensures { IfOk result (λ rows. rows.items ≡ numbered 0 one_empty) }
{
    let mut rows = Vec::new(alloc);
    let first = Row {
        origin: 0,
        solution: Solution::empty(alloc),
    };
    if rows.push(first).is_err() {
        return Err(Memory);
    }
    Ok(rows)
}
