//! What a worker does.
ghost use Rattle.std.specs.Prelude.{◌≡◌, ◌<◌, [], ◌∷◌, All, length, true};
ghost use Rattle.fx_outside.specs.Endpoints.{is_sendable};
ghost use Rattle.fx_pool.specs.Runs.{WireDid, one_reply};
ghost use Rattle.fx_pool.specs.declared.jobs.Job.{Job as JobParts};

use crate::jobs::{Job, JobReply};
use crate::running::do_job;
use fx_outside::Endpoint;
use fx_terms::Memory;
use fx_wire::Wire;
use std::alloc::Global;

/// Something that a worker does over its wire. What workers share may be shared by threads, which is shown
/// once, where a type becomes a task.
pub trait Task {
    /// The job that it is.
    ghost job: { Self → JobParts };

    /// Does it over a wire.
    fn perform<W: Wire>(
        &self,
        alloc: Global,
        wire: &mut W,
        endpoints: &[Endpoint],
    ) -> Result<JobReply, Memory>
        requires sendable { All (λ e. is_sendable e ≡ true) endpoints.now }
        requires within { (job self.now).at < length endpoints.now }
        ensures { WireDid W.counts_alone (W.seen wire.old) (W.seen wire.new) endpoints.now (job self.now ∷ []) (one_reply result) };
}

impl Task for Job {
    ghost job = { λ job. job };

    fn perform<W: Wire>(
        &self,
        alloc: Global,
        wire: &mut W,
        endpoints: &[Endpoint],
    ) -> Result<JobReply, Memory> {
        do_job(alloc, wire, endpoints, self)
    }
}
