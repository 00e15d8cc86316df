//! The units of a run, asked for in batches.
ghost use Rattle.std.specs.Prelude.{◌≡◌, ◌↔◌, ◌<◌, ◌≤◌, ◌∷◌, All, Contains, IfErr, IfOk, IfSome, IsPermutation, IsTrue, List, MatchOption, None, [], true, length, map};
ghost use Rattle.crossbeam_queue.specs.SegTies.{IsSegPassOf};
ghost use Rattle.fx_terms.specs.declared.triples.Triple.{Triple as TripleParts};
ghost use Rattle.fx_algebra.specs.Graphs.{union};
ghost use Rattle.fx_algebra.specs.Units.{step};
ghost use Rattle.fx_algebra.specs.declared.units.Row.{Row as RowParts};
ghost use Rattle.fx_spelling.specs.Units.{IsFit, IsSound};
ghost use Rattle.fx_bound.specs.Answers.{numbers};
ghost use Rattle.fx_outside.specs.Endpoints.{is_sendable};
ghost use Rattle.fx_flows.specs.Flows.{AskedBatch, AskedMember, AskedMembers, lists_in, rows_in};
ghost use Rattle.fx_flows.specs.Flows as spec;
ghost use Rattle.fx_flows.specs.Lines.{hand};
ghost use Rattle.fx_flows.specs.Forms.{CanAsk, has_form};
ghost use Rattle.fx_pool.specs.Reading.{carried_for};
ghost use Rattle.fx_flows.specs.Followed.{CanFollow};
ghost use Rattle.fx_flows.specs.RunFlows.{RunFlowedOver};
ghost use Rattle.fx_steps.specs.Steps.{numbered};
ghost use Rattle.fx_traffic.specs.Batches.{AreCut, IsSized};
ghost use Rattle.fx_traffic.specs.Gains.{seen};

use crate::cutting::cut;
use crate::flowing::flow_out;
use crate::following::{Queue, Run, put_all};
use crate::forms::{Forms, kind_for};
use crate::gates::Gate;
use crate::lines::{Line, Ticket, lined, waiting};
use crate::parcels::RunShape;
use crate::steps::Step;
use crate::teams::{ask_rounds, waits_less_in_rounds};
use fx_algebra::{Row, Solution, Unit};
use fx_bound::Found;
use fx_founds::unite_rows;
use fx_outside::Endpoint;
use fx_pool::BadReply;
use fx_pool::faults::ReadError;
use fx_pool::posting::{Posted, post};
use fx_terms::{Items, Memory};
use fx_wire::Wire;
use std::alloc::Global;
use std::slice::from_ref;
use std::sync::Wait;
use std::thread::Threads;

/// Why there are no rows behind the units of a run. An endpoint is named by its number, from 0.
#[derive(Drop)]
pub enum FlowError {
    /// An exchange with the endpoint failed, and was counted as a fault at its address.
    Member { at: u32 },
    /// A reply of the endpoint is bad.
    BadReply { at: u32, bad: BadReply },
    /// A text for the endpoint has more than 67,108,864 bytes, so many, and wasn't sent.
    RequestTooLong { at: u32, length: u64 },
    /// Memory ran out.
    Memory,
}

/// The rows behind the units of a run that begins with these solutions, numbered from 0, asked for over wires unit by unit, in batches of `block` rows at most.
/// None of the requests of a step, which are its batches for each member of its unit, waits for another that it doesn't need: where they are no more than the wires, all
/// are under way at once. Then all its rows are cut into the batches of the next unit.
///
/// Where the wires tell the graphs of the units' members, and each unit is sound over all, the rows are those of the steps over their union, in
/// some order: each merges a solution under its number with what the units' patterns have there. Where wires tell their logs, they gained texts
/// of batches of the units; where they tell the graphs too, of batches of the rows that enter each unit, and no batch is sent to a member twice.
/// What ends a run early is one of these: `Member`, an exchange with the endpoint failed, which its wire counted as a fault at its address;
/// `BadReply`, with the first fault of what was replied; `RequestTooLong`, a text has more than 67,108,864 bytes, and wasn't sent; `Memory`.
/// Where several wires met one, the first of them in their order is answered.
pub fn run_flow<R: Threads + Wait + Sync, W: Wire + Send>(
    rt: &R,
    alloc: Global,
    endpoints: &[Endpoint],
    units: &[Unit],
    rows: &[Solution],
    block: u32,
    wires: &mut [W],
) -> Result<Vec<Row>, FlowError>
    requires wired { (0 < length wires.old) × (length wires.old ≤ 16) }
    requires sendable { All (λ e. is_sendable e ≡ true) endpoints.now }
    requires some { 0 < length units.now }
    requires fit { All IsFit units.now }
    requires block { (0 < block) × (block ≤ 64) }
    requires within { All (λ u. All (λ at. at < length endpoints.now) u.members) units.now }
    ensures { RunFlowedOver (seen W.Wire wires.old wires.new)
        endpoints.now units.now block (numbered 0 rows.now) (rows_in result) }
{
    let Ok(first) = number(alloc, rows) else {
        return Err(FlowError::Memory);
    };
    run_rows(rt, alloc, endpoints, units, first, block as u64, wires)
}

/// The rows behind units which these rows enter, unit by unit, with all that `run_flow` says of a run from its begin: the rows of a step are cut together, and each step is asked for in the way
/// that waits least. Without units they are these rows.
pub fn run_rows<R: Threads + Wait + Sync, W: Wire + Send>(
    rt: &R,
    alloc: Global,
    endpoints: &[Endpoint],
    units: &[Unit],
    rows: Vec<Row>,
    block: u64,
    wires: &mut [W],
) -> Result<Vec<Row>, FlowError>
    requires wired { (0 < length wires.old) × (length wires.old ≤ 16) }
    requires sendable { All (λ e. is_sendable e ≡ true) endpoints.now }
    requires fit { All IsFit units.now }
    requires block { (0 < block) × (block ≤ 64) }
    requires within { All (λ u. All (λ at. at < length endpoints.now) u.members) units.now }
    ensures { RunFlowedOver (seen W.Wire wires.old wires.new)
        endpoints.now units.now block rows.items (rows_in result) }
{
    let mut left = units;
    let mut entering = rows;
    while let Some((unit, others)) = first_of(left, endpoints) {
        let Ok(batches) = cut(alloc, entering, block) else {
            return Err(FlowError::Memory);
        };
        if is_none(batches.as_slice()) {
            return Ok(Vec::new(alloc));
        }
        match ask_unit(rt, alloc, endpoints, unit, batches, block, wires) {
            Err(error) => return Err(error),
            Ok(next) => entering = next,
        }
        left = others;
    }
    Ok(entering)
}

// The rows behind one unit, whose batches these are: in rounds of teams where these wait less, and else by workers that share one queue.
fn ask_unit<R: Threads + Wait + Sync, W: Wire + Send>(
    rt: &R,
    alloc: Global,
    endpoints: &[Endpoint],
    unit: &Unit,
    batches: Vec<Items<Row>>,
    block: u64,
    wires: &mut [W],
) -> Result<Vec<Row>, FlowError>
    requires wired { (0 < length wires.old) × (length wires.old ≤ 16) }
    requires sendable { All (λ e. is_sendable e ≡ true) endpoints.now }
    requires fit { IsFit unit.now }
    requires block { (0 < block) × (block ≤ 64) }
    requires within { All (λ at. at < length endpoints.now) unit.now.members }
    requires first { (0 < length batches.items) × All (IsSized block) batches.items }
    ensures { (rows : List RowParts) → AreCut rows block batches.items
        → RunFlowedOver (seen W.Wire wires.old wires.new)
        endpoints.now (unit.now ∷ []) block rows (rows_in result) }
{
    if waits_less_in_rounds(batches.len(), unit.members.len(), wires.len()) {
        return ask_rounds(rt, &alloc, endpoints, unit, batches.as_slice(), wires);
    }
    piped(rt, alloc, endpoints, from_ref(unit), batches, block, wires)
}

// The first of the units, and the others.
fn first_of<'a>(units: &'a [Unit], _endpoints: &[Endpoint]) -> Option<(&'a Unit, &'a [Unit])>
    requires fit { All IsFit units.now }
    requires within { All (λ u. All (λ at. at < length _endpoints.now) u.members) units.now }
    ensures whole { MatchOption result (units.now ≡ []) (λ p. units.now ≡ p.0.now ∷ p.1.now) }
    ensures fit { IfSome result (λ p. IsFit p.0.now × All IsFit p.1.now) }
    ensures within { IfSome result (λ p. All (λ at. at < length _endpoints.now) p.0.now.members
        × All (λ u. All (λ at. at < length _endpoints.now) u.members) p.1.now) }
{
    match units.split_first() {
        None => None,
        Some((unit, others)) => Some((unit, others)),
    }
}

// The rows behind units which these batches enter, by workers that share one queue.
fn piped<R: Threads + Wait + Sync, W: Wire + Send>(
    rt: &R,
    alloc: Global,
    endpoints: &[Endpoint],
    units: &[Unit],
    first: Vec<Items<Row>>,
    block: u64,
    wires: &mut [W],
) -> Result<Vec<Row>, FlowError>
    requires wired { (0 < length wires.old) × (length wires.old ≤ 16) }
    requires sendable { All (λ e. is_sendable e ≡ true) endpoints.now }
    requires some { 0 < length units.now }
    requires fit { All IsFit units.now }
    requires block { (0 < block) × (block ≤ 64) }
    requires within { All (λ u. All (λ at. at < length endpoints.now) u.members) units.now }
    requires first { (0 < length first.items) × All (IsSized block) first.items }
    ensures { (rows : List RowParts) → AreCut rows block first.items
        → RunFlowedOver (seen W.Wire wires.old wires.new)
        endpoints.now units.now block rows (rows_in result) }
{
    let shape = RunShape {
        units: units.len() as u64,
        block,
    };
    let Ok((line, mut me)) = lined(alloc) else {
        return Err(FlowError::Memory);
    };
    let run = Run {
        endpoints,
        units,
        shape,
    };
    let found = all_rows(rt, alloc, &line, &mut me, &run, first, wires);
    line.destroy();
    found
}

// Puts the first batches, and follows them over all wires.
fn all_rows<R: Threads + Wait + Sync, W: Wire + Send, U: Step + Sync>(
    rt: &R,
    alloc: Global,
    line: &Line,
    me: &mut Ticket,
    run: &Run<'_, U>,
    first: Vec<Items<Row>>,
    wires: &mut [W],
) -> Result<Vec<Row>, FlowError>
    requires pass { IsSegPassOf line.now me.old × (me.old.me.view.client ≡ hand 16 None [] []) }
    requires first { (0 < length first.items) × All (IsSized run.now.shape.block) first.items }
    requires wired { (0 < length wires.old) × (length wires.old ≤ 16) }
    requires run { CanFollow run.now.endpoints.now (map U.unit run.now.units.now) run.now.shape }
    requires some { 0 < run.now.shape.units }
    ensures { (rows : List RowParts) → AreCut rows run.now.shape.block first.items
        → RunFlowedOver (seen W.Wire wires.old wires.new)
        run.now.endpoints.now (map U.unit run.now.units.now) run.now.shape.block rows (rows_in result) }
{
    let gate = Gate::new(first.len() as u64);
    let count = wanted(first.len(), run.units.len(), wires.len());
    if put_all(rt, line, me, run.shape, 0, first).is_err() {
        return Err(FlowError::Memory);
    }
    let (used, _idle) = wires.split_at_mut(count);
    let queue = Queue {
        alloc,
        line,
        gate: &gate,
    };
    let found = flow_out(rt, &queue, me, run, used);
    // After a refusal the parcels that wait are those that nobody took.
    let _left = waiting(rt, line, me);
    found
}

// How many wires a run can use: no more than batches, where no unit makes further ones.
fn wanted(batches: usize, units: usize, wires: usize) -> usize
    requires { (0 < batches) × (0 < wires) }
    ensures { (0 < result) × (result ≤ wires) }
{
    if units == 1 {
        batches.min(wires)
    } else {
        wires
    }
}

// Solutions as rows, numbered from 0.
fn number(alloc: Global, solutions: &[Solution]) -> Result<Vec<Row>, Memory>
    ensures { IfOk result (λ rows. rows.items ≡ numbered 0 solutions.now) }
{
    let mut rows = Vec::new(alloc);
    for solution in solutions {
        let row = Row {
            origin: rows.len() as u64,
            solution: solution.copy(alloc)?,
        };
        if rows.push(row).is_err() {
            return Err(Memory);
        }
    }
    Ok(rows)
}

pub(crate) fn is_none(batches: &[Items<Row>]) -> bool
    ensures { IsTrue result ↔ (batches.now ≡ []) }
{
    batches.is_empty()
}

/// What the members of a unit have for rows, united.
pub(crate) fn ask_batch<W: Wire>(
    alloc: Global,
    wire: &mut W,
    endpoints: &[Endpoint],
    unit: &Unit,
    rows: &[Row],
) -> Result<Vec<Row>, FlowError>
    requires sendable { All (λ e. is_sendable e ≡ true) endpoints.now }
    requires fit { IsFit unit.now }
    requires few { length rows.now ≤ 64 }
    requires within { All (λ at. at < length endpoints.now) unit.now.members }
    ensures { AskedBatch W.counts_alone (W.seen wire.old) (W.seen wire.new) endpoints.now (record { unit = unit.now; rows = rows.now }) (rows_in result) }
{
    match Forms::of(alloc, endpoints, unit, rows) {
        Err(Memory) => Err(FlowError::Memory),
        Ok(forms) => ask_for(alloc, wire, endpoints, &forms, unit.members.as_slice()),
    }
}

// What the members of a batch's unit have for it, united.
fn ask_for<W: Wire>(
    alloc: Global,
    wire: &mut W,
    endpoints: &[Endpoint],
    forms: &Forms<'_>,
    members: &[u32],
) -> Result<Vec<Row>, FlowError>
    requires sendable { All (λ e. is_sendable e ≡ true) endpoints.now }
    requires within { All (CanAsk endpoints.now forms.now) members.now }
    requires all { members.now ≡ forms.now.parts.unit.members }
    ensures { AskedBatch W.counts_alone (W.seen wire.old) (W.seen wire.new) endpoints.now forms.now.parts (rows_in result) }
{
    match ask_members(alloc, wire, endpoints, forms, members) {
        Err(error) => Err(error),
        Ok(lists) => united(alloc, forms, lists.as_slice()),
    }
}

pub(crate) fn united(
    alloc: Global,
    forms: &Forms<'_>,
    lists: &[Items<Found>],
) -> Result<Vec<Row>, FlowError>
    requires { All (λ list. All (λ f. Contains (numbers forms.now.parts) f.branch) list) lists.now }
    ensures step { (graphs : List (List TripleParts)) → IsSound graphs forms.now.parts.unit → spec.AreToldOf graphs forms.now.parts forms.now.parts.unit.members lists.now
        → IfOk result (λ rows. IsPermutation rows.items (step (union graphs) forms.now.parts.unit forms.now.parts.rows)) }
    ensures memory { IfErr result (λ e. e ≡ FlowError.Memory) }
{
    match unite_rows(alloc, forms.rows(), lists) {
        Ok(rows) => Ok(rows),
        Err(Memory) => Err(FlowError::Memory),
    }
}

/// What members have for a batch, one after another.
pub(crate) fn ask_members<W: Wire>(
    alloc: Global,
    wire: &mut W,
    endpoints: &[Endpoint],
    forms: &Forms<'_>,
    members: &[u32],
) -> Result<Vec<Items<Found>>, FlowError>
    requires sendable { All (λ e. is_sendable e ≡ true) endpoints.now }
    requires within { All (CanAsk endpoints.now forms.now) members.now }
    ensures { AskedMembers W.counts_alone (W.seen wire.old) (W.seen wire.new) endpoints.now forms.now.parts members.now (lists_in result) }
{
    let mut lists = Vec::new(alloc);
    for at in members {
        match ask_member(alloc, wire, endpoints, forms, *at) {
            Err(error) => return Err(error),
            Ok(founds) => {
                if lists.push(founds).is_err() {
                    return Err(FlowError::Memory);
                }
            }
        }
    }
    Ok(lists)
}

// What a member has for the branches of a batch, which it is asked for in the form that it takes: nothing, where the batch has no text.
fn ask_member<W: Wire>(
    alloc: Global,
    wire: &mut W,
    endpoints: &[Endpoint],
    forms: &Forms<'_>,
    at: u32,
) -> Result<Items<Found>, FlowError>
    requires sendable { All (λ e. is_sendable e ≡ true) endpoints.now }
    requires within { CanAsk endpoints.now forms.now at }
    ensures { AskedMember W.counts_alone (W.seen wire.old) (W.seen wire.new) endpoints.now forms.now.parts at result }
{
    let endpoint = &endpoints[at as usize];
    match forms.text(endpoint) {
        None => Ok(Items::new(alloc)),
        Some(text) => match post(alloc, wire, endpoint, text) {
            Err(Memory) => Err(FlowError::Memory),
            Ok(posted) => found_by(alloc, forms, endpoint, at, posted),
        },
    }
}

// What came of the text of a batch.
fn found_by(
    alloc: Global,
    forms: &Forms<'_>,
    endpoint: &Endpoint,
    at: u32,
    posted: Posted,
) -> Result<Items<Found>, FlowError>
    requires { has_form forms.now endpoint.now ≡ true }
    ensures { spec.FoundBy (carried_for endpoint.now forms.now.parts) forms.now.parts at posted result }
{
    match posted {
        Posted::Failed => Err(FlowError::Member { at }),
        Posted::TooLong { length } => Err(FlowError::RequestTooLong { at, length }),
        Posted::Replied { request, reply } => found_in(alloc, forms, endpoint, at, request, reply),
    }
}

fn found_in(
    alloc: Global,
    forms: &Forms<'_>,
    endpoint: &Endpoint,
    at: u32,
    request: Items<u8>,
    reply: Items<u8>,
) -> Result<Items<Found>, FlowError>
    requires { has_form forms.now endpoint.now ≡ true }
    ensures { spec.FoundIn (carried_for endpoint.now forms.now.parts) forms.now.parts at request reply result }
{
    match forms.read(alloc, endpoint, reply.as_slice()) {
        Ok(founds) => Ok(founds),
        Err(ReadError::Memory) => Err(FlowError::Memory),
        Err(ReadError::Bad(why)) => Err(FlowError::BadReply {
            at,
            bad: BadReply {
                kind: kind_for(endpoint),
                request,
                reply,
                why,
            },
        }),
    }
}
