//! Jobs over one wire, one after another.
ghost use Rattle.std.specs.Prelude.{◌≡◌, ◌<◌, All, length, true};
ghost use Rattle.fx_outside.specs.Endpoints.{is_sendable};
ghost use Rattle.fx_pool.specs.Runs.{WireDid, WiresDidOver, all_replies};
ghost use Rattle.fx_traffic.specs.Gains.{seen};

use fx_outside::Endpoint;
use fx_pool::tasks::Task;
use fx_pool::{Job, JobReply};
use fx_terms::Memory;
use fx_wire::Wire;
use std::alloc::Global;

/// Does jobs over the first of the wires.
pub(crate) fn do_jobs<W: Wire>(
    alloc: Global,
    endpoints: &[Endpoint],
    jobs: &[Job],
    wires: &mut [W],
) -> Result<Vec<JobReply>, Memory>
    requires wired { 0 < length wires.old }
    requires sendable { All (λ e. is_sendable e ≡ true) endpoints.now }
    requires within { All (λ j. j.at < length endpoints.now) jobs.now }
    ensures { WiresDidOver (seen W.Wire wires.old wires.new) endpoints.now jobs.now (all_replies result) }
{
    do_all(alloc, endpoints, jobs, &mut wires[0])
}

// Does jobs over a wire, in their order.
fn do_all<W: Wire>(
    alloc: Global,
    endpoints: &[Endpoint],
    jobs: &[Job],
    wire: &mut W,
) -> Result<Vec<JobReply>, Memory>
    requires sendable { All (λ e. is_sendable e ≡ true) endpoints.now }
    requires within { All (λ j. j.at < length endpoints.now) jobs.now }
    ensures { WireDid W.counts_alone (W.seen wire.old) (W.seen wire.new) endpoints.now jobs.now (all_replies result) }
{
    let mut replies = Vec::new(alloc);
    for job in jobs {
        match job.perform(alloc, wire, endpoints) {
            Err(Memory) => return Err(Memory),
            Ok(reply) => {
                if replies.push(reply).is_err() {
                    return Err(Memory);
                }
            }
        }
    }
    Ok(replies)
}
