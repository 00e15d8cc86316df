//! Workers side by side, each with its own wire.
ghost use Rattle.std.specs.Prelude.{◌≡◌, ◌<◌, ◌≤◌, ◌++◌, All, IfOk, IsOkAnd, length, map, true};
ghost use Rattle.std.specs.Thread.{IsSync};
ghost use Rattle.fx_outside.specs.Endpoints.{is_sendable};
ghost use Rattle.fx_pool.specs.Claims.{IsFresh};
ghost use Rattle.fx_pool.specs.Sharing.{HaveWorkedOver};
ghost use Rattle.fx_traffic.specs.Gains.{seen};

use crate::claims::{Claims, Worker, joined, split};
use crate::jobs::Done;
use crate::tasks::Task;
use crate::working::work;
use fx_outside::Endpoint;
use fx_terms::Memory;
use fx_wire::Wire;
use std::alloc::Global;
use std::sync::Wait;
use std::thread::{Threads, join_mut};

/// Shares the jobs over all wires: half of them in a thread of its own, and so on down to one wire for each worker.
pub(crate) fn share<R: Threads + Wait + Sync, W: Wire + Send, T: Task + Sync>(
    rt: &R,
    alloc: &Global,
    claims: &Claims,
    me: &mut Worker,
    endpoints: &[Endpoint],
    tasks: &[T],
    wires: &mut [W],
) -> Result<Vec<Done>, Memory>
    requires table { (me.old.table_id ≡ claims.now.shared.table_id) × (claims.now.shared.table_id.words ≡ 1) }
    requires fresh { IsFresh (length (map T.job tasks.now)) me.old.me }
    requires sendable { All (λ e. is_sendable e ≡ true) endpoints.now }
    requires within { All (λ j. j.at < length endpoints.now) (map T.job tasks.now) }
    requires wired { (0 < length wires.old) × (length wires.old ≤ me.old.me.0.parts) }
    ensures table { me.new.table_id ≡ me.old.table_id }
    ensures worked { HaveWorkedOver (seen W.Wire wires.old wires.new)
        endpoints.now (map T.job tasks.now) me.old.me me.new.me result }
{
    if wires.len() < 2 {
        return work(rt, *alloc, claims, me, endpoints, tasks, &mut wires[0]);
    }
    let mut other = split(claims, me);
    let them = &mut other;
    let (left, right) = wires.split_at_mut(wires.len() - wires.len() / 2);
    let (ours, theirs) = join_mut(
        rt,
        &mut || -> Result<Vec<Done>, Memory>
            requires sync { IsSync R.row × IsSync T.row }
            requires table { (me.now.table_id ≡ claims.now.shared.table_id) × (claims.now.shared.table_id.words ≡ 1) }
            requires fresh { IsFresh (length (map T.job tasks.now)) me.now.me }
            requires sendable { All (λ e. is_sendable e ≡ true) endpoints.now }
            requires within { All (λ j. j.at < length endpoints.now) (map T.job tasks.now) }
            requires wired { (0 < length left.now) × (length left.now ≤ me.now.me.0.parts) }
            ensures table { me.exit.now.table_id ≡ me.entry.now.table_id }
            ensures worked { HaveWorkedOver (seen W.Wire left.entry.now left.exit.now)
                endpoints.entry.now (map T.job tasks.entry.now) me.entry.now.me me.exit.now.me result }
        { share(rt, alloc, claims, me, endpoints, tasks, left) },
        &mut || -> Result<Vec<Done>, Memory>
            requires sync { IsSync R.row × IsSync T.row }
            requires table { (them.now.table_id ≡ claims.now.shared.table_id) × (claims.now.shared.table_id.words ≡ 1) }
            requires fresh { IsFresh (length (map T.job tasks.now)) them.now.me }
            requires sendable { All (λ e. is_sendable e ≡ true) endpoints.now }
            requires within { All (λ j. j.at < length endpoints.now) (map T.job tasks.now) }
            requires wired { (0 < length right.now) × (length right.now ≤ them.now.me.0.parts) }
            ensures table { them.exit.now.table_id ≡ them.entry.now.table_id }
            ensures worked { HaveWorkedOver (seen W.Wire right.entry.now right.exit.now)
                endpoints.entry.now (map T.job tasks.entry.now) them.entry.now.me them.exit.now.me result }
        { share(rt, alloc, claims, them, endpoints, tasks, right) },
    );
    joined(claims, me, other);
    both(ours, theirs)
}

// What the workers of both halves did.
fn both(
    ours: Result<Vec<Done>, Memory>,
    theirs: Result<Vec<Done>, Memory>,
) -> Result<Vec<Done>, Memory>
    ensures { IfOk result (λ all. IsOkAnd ours (λ a. IsOkAnd theirs (λ b. all.items ≡ a.items ++ b.items))) }
{
    let mut ours = ours?;
    let mut theirs = theirs?;
    if ours.append(&mut theirs).is_err() {
        return Err(Memory);
    }
    Ok(ours)
}
