//! One worker with its wire, on the way of parcels through the units of a run.
ghost use Rattle.std.specs.Prelude.{◌≡◌, ◌<◌, All, IfSome, MatchOption, OnOk, Some, false, length, map, true};
ghost use Rattle.crossbeam_queue.specs.SegTies.{IsSegPassOf};
ghost use Rattle.fx_traffic.specs.Batches.{IsSized};
ghost use Rattle.fx_flows.specs.Followed.{ArePut, CanFollow, Followed, HasFlowed, HasPassedOn, IsNext, IsPutButOne, IsSamePass};
ghost use Rattle.fx_flows.specs.Lines.{IsOf, MayPut, with_taken};
ghost use Rattle.fx_flows.specs.Parcels.{IsParcelOf, SameParcels, parcels};

use crate::cutting::cut;
use crate::flows::FlowError;
use crate::gates::Gate;
use crate::lines::{Line, Ticket, put, take};
use crate::parcels::{Parcel, RunShape};
use crate::steps::Step;
use fx_algebra::Row;
use fx_outside::Endpoint;
use fx_terms::{Items, Memory};
use fx_wire::Wire;
use std::alloc::Global;
use std::sync::Wait;

/// What a run asks: its endpoints, its units, and how many these are and rows a parcel may have.
#[derive(Drop)]
pub(crate) struct Run<'a, U> {
    pub(crate) endpoints: &'a [Endpoint],
    pub(crate) units: &'a [U],
    pub(crate) shape: RunShape,
}

/// The queue of a run's parcels, where its workers wait for them, and take memory for more.
#[derive(Drop)]
pub(crate) struct Queue<'a> {
    pub(crate) alloc: Global,
    pub(crate) line: &'a Line,
    pub(crate) gate: &'a Gate,
}

/// Takes parcels, and follows each through the units with its wire: it asks the members of the unit for the parcel's rows, keeps one batch of
/// what they have in hand and puts the others, and keeps the rows behind the last unit. Where it `waits` it ends when the run is over, and
/// else when the queue is empty. A fault, or want of memory, ends it before.
pub(crate) fn work<R: Wait, W: Wire, U: Step>(
    rt: &R,
    queue: &Queue<'_>,
    me: &mut Ticket,
    waits: bool,
    run: &Run<'_, U>,
    wire: &mut W,
) -> Result<Vec<Row>, FlowError>
    requires pass { IsSegPassOf queue.now.line.now me.old × (0 < me.old.me.view.client.parts) }
    requires run { CanFollow run.now.endpoints.now (map U.unit run.now.units.now) run.now.shape }
    requires shape { me.old.me.view.client.shape ≡ Some run.now.shape }
    ensures pass { IsSegPassOf queue.now.line.now me.new × IsSamePass me.old.me.view.client me.new.me.view.client }
    ensures flowed { HasFlowed W.counts_alone (W.seen wire.old) (W.seen wire.new) run.now.endpoints.now (map U.unit run.now.units.now) run.now.shape
        me.old.me.view.client me.new.me.view.client result }
    ensures empty { OnOk result (waits ≡ false → me.old.me.view.client.parts ≡ 16 → SameParcels me.new.me.view.client.put me.new.me.view.client.took) }
{
    let mut made = Vec::new(queue.alloc);
    let mut in_hand = None;
    for _ in rt.forever() {
        let Some(parcel) = next(rt, queue, me, waits, run.shape, in_hand) else {
            return Ok(made);
        };
        match follow(rt, queue, me, run, wire, parcel, &mut made) {
            Ok(next) => in_hand = next,
            Err(error) => {
                queue.gate.close(rt);
                return Err(error);
            }
        }
    }
    unreachable!()
}

// The parcel in hand, or the next from the queue. Where the run is over, what is in hand is put back.
fn next<R: Wait>(
    rt: &R,
    queue: &Queue<'_>,
    me: &mut Ticket,
    waits: bool,
    _shape: RunShape,
    in_hand: Option<Parcel>,
) -> Option<Parcel>
    requires pass { IsSegPassOf queue.now.line.now me.old × (0 < me.old.me.view.client.parts) × (me.old.me.view.client.shape ≡ Some _shape) }
    requires parcel { IfSome in_hand (IsParcelOf _shape) }
    ensures pass { IsSegPassOf queue.now.line.now me.new }
    ensures next { IsNext in_hand waits me.old.me.view.client me.new.me.view.client result }
{
    match in_hand {
        Some(parcel) if waits => kept(rt, queue, me, parcel),
        Some(parcel) => Some(parcel),
        None if waits => waited_for(rt, queue, me),
        None => take(rt, queue.line, me),
    }
}

// The parcel in hand, which is put back where the run is over, if there is room.
fn kept<R: Wait>(rt: &R, queue: &Queue<'_>, me: &mut Ticket, parcel: Parcel) -> Option<Parcel>
    requires pass { IsSegPassOf queue.now.line.now me.old × (0 < me.old.me.view.client.parts) × (me.old.me.view.client.shape ≡ Some parcel.shape) }
    requires parcel { IsParcelOf parcel.shape parcel }
    ensures pass { IsSegPassOf queue.now.line.now me.new }
    ensures next { IsNext (Some parcel) true me.old.me.view.client me.new.me.view.client result }
{
    match queue.gate.seen(rt) {
        Some(_) => Some(parcel),
        None => match put(rt, queue.line, me, parcel) {
            Ok(()) => None,
            Err(parcel) => Some(parcel),
        },
    }
}

// The next parcel from the queue, unless the run is over.
fn waited_for<R: Wait>(rt: &R, queue: &Queue<'_>, me: &mut Ticket) -> Option<Parcel>
    requires pass { IsSegPassOf queue.now.line.now me.old × (0 < me.old.me.view.client.parts) }
    ensures pass { IsSegPassOf queue.now.line.now me.new }
    ensures took { MatchOption result
        (me.new.me.view.client ≡ me.old.me.view.client)
        (λ p. (me.new.me.view.client ≡ with_taken me.old.me.view.client p) × IsOf me.old.me.view.client.shape p) }
{
    for _ in rt.forever() {
        let Some(seen) = queue.gate.seen(rt) else {
            return None;
        };
        match take(rt, queue.line, me) {
            Some(parcel) => return Some(parcel),
            None => queue.gate.wait(rt, seen),
        }
    }
    unreachable!()
}

// Asks the members of a parcel's unit for its rows, and passes on what they have. The next parcel may be in hand.
fn follow<R: Wait, W: Wire, U: Step>(
    rt: &R,
    queue: &Queue<'_>,
    me: &mut Ticket,
    run: &Run<'_, U>,
    wire: &mut W,
    parcel: Parcel,
    made: &mut Vec<Row>,
) -> Result<Option<Parcel>, FlowError>
    requires pass { IsSegPassOf queue.now.line.now me.old × (0 < me.old.me.view.client.parts) }
    requires run { CanFollow run.now.endpoints.now (map U.unit run.now.units.now) run.now.shape }
    requires shape { me.old.me.view.client.shape ≡ Some run.now.shape }
    requires parcel { IsParcelOf run.now.shape parcel }
    ensures pass { IsSegPassOf queue.now.line.now me.new × IsSamePass me.old.me.view.client me.new.me.view.client }
    ensures followed { Followed W.counts_alone (W.seen wire.old) (W.seen wire.new) run.now.endpoints.now (map U.unit run.now.units.now) run.now.shape
        me.old.me.view.client me.new.me.view.client parcel made.old.items made.new.items result }
{
    let units = run.units;
    let unit = &units[parcel.step as usize];
    match unit.ask(queue.alloc, wire, run.endpoints, parcel.rows.as_slice()) {
        Err(error) => Err(error),
        Ok(found) => match pass_on(rt, queue, me, run.shape, parcel.step, found, made) {
            Ok(next) => Ok(next),
            Err(Memory) => Err(FlowError::Memory),
        },
    }
}

// Rows that were found for the unit of a number join those behind the last unit, or are cut for the next one: one batch is kept in hand, the others are put.
fn pass_on<R: Wait>(
    rt: &R,
    queue: &Queue<'_>,
    me: &mut Ticket,
    shape: RunShape,
    at: u64,
    found: Vec<Row>,
    made: &mut Vec<Row>,
) -> Result<Option<Parcel>, Memory>
    requires pass { IsSegPassOf queue.now.line.now me.old × (0 < me.old.me.view.client.parts) }
    requires shape { (me.old.me.view.client.shape ≡ Some shape) × (0 < shape.block) × (at < shape.units) }
    ensures pass { IsSegPassOf queue.now.line.now me.new × IsSamePass me.old.me.view.client me.new.me.view.client }
    ensures passed { HasPassedOn shape at me.old.me.view.client me.new.me.view.client found.items made.old.items made.new.items result }
{
    let step = at + 1;
    if step >= shape.units {
        let mut found = found;
        if made.append(&mut found).is_err() {
            return Err(Memory);
        }
        queue.gate.finished(rt);
        return Ok(None);
    }
    let batches = cut(queue.alloc, found, shape.block)?;
    put_all_but_one(rt, queue, me, shape, step, batches)
}

// Puts batches for a unit, and keeps the last in hand.
fn put_all_but_one<R: Wait>(
    rt: &R,
    queue: &Queue<'_>,
    me: &mut Ticket,
    shape: RunShape,
    step: u64,
    batches: Vec<Items<Row>>,
) -> Result<Option<Parcel>, Memory>
    requires pass { IsSegPassOf queue.now.line.now me.old × (0 < me.old.me.view.client.parts) }
    requires shape { (me.old.me.view.client.shape ≡ Some shape) × (step < shape.units) × All (IsSized shape.block) batches.items }
    ensures pass { IsSegPassOf queue.now.line.now me.new × IsSamePass me.old.me.view.client me.new.me.view.client }
    ensures put { IsPutButOne shape step me.old.me.view.client me.new.me.view.client batches.items result }
{
    let mut batches = batches;
    let Some(rows) = batches.pop() else {
        queue.gate.finished(rt);
        return Ok(None);
    };
    if !batches.is_empty() {
        let count = batches.len() as u64;
        queue.gate.more(rt, count);
        put_all(rt, queue.line, me, shape, step, batches)?;
        queue.gate.put(rt, count);
    }
    Ok(Some(Parcel { shape, step, rows }))
}

/// Puts batches for the unit of a number.
pub(crate) fn put_all<R: Wait>(
    rt: &R,
    line: &Line,
    me: &mut Ticket,
    shape: RunShape,
    step: u64,
    batches: Vec<Items<Row>>,
) -> Result<(), Memory>
    requires pass { IsSegPassOf line.now me.old × (0 < me.old.me.view.client.parts) }
    requires shape { MayPut shape me.old.me.view.client × (step < shape.units) × All (IsSized shape.block) batches.items }
    ensures pass { IsSegPassOf line.now me.new }
    ensures shape { (0 < length batches.items → OnOk result (me.new.me.view.client.shape ≡ Some shape))
        × (me.old.me.view.client.shape ≡ Some shape → me.new.me.view.client.shape ≡ Some shape) }
    ensures put { ArePut me.old.me.view.client me.new.me.view.client (parcels shape step batches.items) result }
{
    for rows in batches {
        if put(rt, line, me, Parcel { shape, step, rows }).is_err() {
            return Err(Memory);
        }
    }
    Ok(())
}
