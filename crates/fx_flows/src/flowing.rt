//! Workers side by side on one queue of parcels, each with its own wire.
ghost use Rattle.std.specs.Prelude.{◌≡◌, ◌<◌, ◌≤◌, OnOk, Some, length, map};
ghost use Rattle.std.specs.Thread.{IsSync};
ghost use Rattle.crossbeam_queue.specs.SegTies.{IsSegPassOf};
ghost use Rattle.fx_traffic.specs.Gains.{seen};
ghost use Rattle.fx_flows.specs.Followed.{AreOfBoth, CanFollow, HaveFlowedOver, IsSamePass};
ghost use Rattle.fx_flows.specs.Parcels.{SameParcels};

use crate::flows::FlowError;
use crate::following::{Queue, Run, work};
use crate::lines::{Ticket, shared_out, taken_in};
use crate::steps::Step;
use fx_algebra::Row;
use fx_wire::Wire;
use std::sync::Wait;
use std::thread::{Threads, join_mut};

/// Follows the parcels of a queue over all wires: with half of them in a thread of its own, and so on down to one wire for each worker.
pub(crate) fn flow<R: Threads + Wait + Sync, W: Wire + Send, U: Step + Sync>(
    rt: &R,
    queue: &Queue<'_>,
    me: &mut Ticket,
    run: &Run<'_, U>,
    wires: &mut [W],
) -> Result<Vec<Row>, FlowError>
    requires pass { IsSegPassOf queue.now.line.now me.old }
    requires wired { (0 < length wires.old) × (length wires.old ≤ me.old.me.view.client.parts) }
    requires run { CanFollow run.now.endpoints.now (map U.unit run.now.units.now) run.now.shape }
    requires shape { me.old.me.view.client.shape ≡ Some run.now.shape }
    ensures pass { IsSegPassOf queue.now.line.now me.new × IsSamePass me.old.me.view.client me.new.me.view.client }
    ensures flowed { HaveFlowedOver (seen W.Wire wires.old wires.new)
        run.now.endpoints.now (map U.unit run.now.units.now) run.now.shape me.old.me.view.client me.new.me.view.client result }
{
    if wires.len() < 2 {
        return work(rt, queue, me, true, run, &mut wires[0]);
    }
    let mut other = shared_out(queue.line, me);
    let them = &mut other;
    let (left, right) = wires.split_at_mut(wires.len() - wires.len() / 2);
    let (ours, theirs) = join_mut(
        rt,
        &mut || -> Result<Vec<Row>, FlowError>
            requires sync { IsSync R.row × IsSync U.row }
            requires pass { IsSegPassOf queue.now.line.now me.now }
            requires wired { (0 < length left.now) × (length left.now ≤ me.now.me.view.client.parts) }
            requires run { CanFollow run.now.endpoints.now (map U.unit run.now.units.now) run.now.shape }
            requires shape { me.now.me.view.client.shape ≡ Some run.now.shape }
            ensures pass { IsSegPassOf queue.entry.now.line.now me.exit.now × IsSamePass me.entry.now.me.view.client me.exit.now.me.view.client }
            ensures flowed { HaveFlowedOver (seen W.Wire left.entry.now left.exit.now)
                run.entry.now.endpoints.now (map U.unit run.entry.now.units.now) run.entry.now.shape me.entry.now.me.view.client me.exit.now.me.view.client result }
        { flow(rt, queue, me, run, left) },
        &mut || -> Result<Vec<Row>, FlowError>
            requires sync { IsSync R.row × IsSync U.row }
            requires pass { IsSegPassOf queue.now.line.now them.now }
            requires wired { (0 < length right.now) × (length right.now ≤ them.now.me.view.client.parts) }
            requires run { CanFollow run.now.endpoints.now (map U.unit run.now.units.now) run.now.shape }
            requires shape { them.now.me.view.client.shape ≡ Some run.now.shape }
            ensures pass { IsSegPassOf queue.entry.now.line.now them.exit.now × IsSamePass them.entry.now.me.view.client them.exit.now.me.view.client }
            ensures flowed { HaveFlowedOver (seen W.Wire right.entry.now right.exit.now)
                run.entry.now.endpoints.now (map U.unit run.entry.now.units.now) run.entry.now.shape them.entry.now.me.view.client them.exit.now.me.view.client result }
        { flow(rt, queue, them, run, right) },
    );
    taken_in(queue.line, me, other);
    both(ours, theirs)
}

/// Follows the parcels of a queue over all wires, and those that still wait then over the first.
pub(crate) fn flow_out<R: Threads + Wait + Sync, W: Wire + Send, U: Step + Sync>(
    rt: &R,
    queue: &Queue<'_>,
    me: &mut Ticket,
    run: &Run<'_, U>,
    wires: &mut [W],
) -> Result<Vec<Row>, FlowError>
    requires pass { IsSegPassOf queue.now.line.now me.old }
    requires wired { (0 < length wires.old) × (length wires.old ≤ me.old.me.view.client.parts) }
    requires run { CanFollow run.now.endpoints.now (map U.unit run.now.units.now) run.now.shape }
    requires shape { me.old.me.view.client.shape ≡ Some run.now.shape }
    ensures pass { IsSegPassOf queue.now.line.now me.new × IsSamePass me.old.me.view.client me.new.me.view.client }
    ensures flowed { HaveFlowedOver (seen W.Wire wires.old wires.new)
        run.now.endpoints.now (map U.unit run.now.units.now) run.now.shape me.old.me.view.client me.new.me.view.client result }
    ensures empty { OnOk result (me.old.me.view.client.parts ≡ 16 → SameParcels me.new.me.view.client.put me.new.me.view.client.took) }
{
    match flow(rt, queue, me, run, wires) {
        Err(error) => Err(error),
        Ok(made) => {
            let rest = work(rt, queue, me, false, run, &mut wires[0]);
            both(Ok(made), rest)
        }
    }
}

/// The rows of both halves, or why there are none: the fault of the first before that of the second.
pub(crate) fn both(
    ours: Result<Vec<Row>, FlowError>,
    theirs: Result<Vec<Row>, FlowError>,
) -> Result<Vec<Row>, FlowError>
    ensures { AreOfBoth ours theirs result }
{
    let mut ours = ours?;
    let mut theirs = theirs?;
    if ours.append(&mut theirs).is_err() {
        return Err(FlowError::Memory);
    }
    Ok(ours)
}
