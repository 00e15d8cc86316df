//! One worker with its wire.
ghost use Rattle.std.specs.Prelude.{◌≡◌, ◌<◌, All, length, map, true};
ghost use Rattle.fx_outside.specs.Endpoints.{is_sendable};
ghost use Rattle.fx_pool.specs.Claims.{IsFresh};
ghost use Rattle.fx_pool.specs.Sharing.{HasWorked};

use crate::claims::{Claims, Worker, draw};
use crate::jobs::Done;
use crate::tasks::Task;
use fx_outside::Endpoint;
use fx_terms::Memory;
use fx_wire::Wire;
use std::alloc::Global;
use std::sync::Wait;

/// Draws numbers, and does each job drawn, until a number is past the jobs. Want of memory ends it before.
pub(crate) fn work<R: Wait, W: Wire, T: Task>(
    rt: &R,
    alloc: Global,
    claims: &Claims,
    me: &mut Worker,
    endpoints: &[Endpoint],
    tasks: &[T],
    wire: &mut W,
) -> Result<Vec<Done>, Memory>
    requires table { (me.old.table_id ≡ claims.now.shared.table_id) × (claims.now.shared.table_id.words ≡ 1) }
    requires fresh { IsFresh (length (map T.job tasks.now)) me.old.me }
    requires sendable { All (λ e. is_sendable e ≡ true) endpoints.now }
    requires within { All (λ j. j.at < length endpoints.now) (map T.job tasks.now) }
    ensures table { me.new.table_id ≡ me.old.table_id }
    ensures worked { HasWorked W.counts_alone (W.seen wire.old) (W.seen wire.new) endpoints.now (map T.job tasks.now) me.old.me me.new.me result }
{
    let mut done = Vec::new(alloc);
    for _ in rt.forever() {
        let number = draw(claims, me);
        if number >= tasks.len() as u64 {
            break;
        }
        match tasks[number as usize].perform(alloc, wire, endpoints) {
            Err(Memory) => return Err(Memory),
            Ok(reply) => {
                if done.push(Done { number, reply }).is_err() {
                    return Err(Memory);
                }
            }
        }
    }
    Ok(done)
}
