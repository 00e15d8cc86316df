//! How jobs are done over wires.
ghost use Rattle.std.specs.Prelude.{◌≡◌, ◌<◌, ◌≤◌, All, length, true};
ghost use Rattle.fx_outside.specs.Endpoints.{is_sendable};
ghost use Rattle.fx_pool.specs.Runs.{WiresDidOver, all_replies};
ghost use Rattle.fx_traffic.specs.Gains.{seen};

use fx_outside::Endpoint;
use fx_pool::{Job, JobReply};
use fx_terms::Memory;
use fx_wire::Wire;
use std::alloc::Global;

/// How jobs are done over wires: by threads, as `run_jobs` of fx_pool does them, or without any.
pub trait DoesJobs<W: Wire> {
    /// This value does jobs as it is to.
    ghost does: { Self → Type 0 };

    /// Does jobs for endpoints over wires, and gives one reply for each, in their order, with all that `run_jobs` of fx_pool says of them.
    fn run_jobs(
        &self,
        alloc: Global,
        endpoints: &[Endpoint],
        jobs: &[Job],
        wires: &mut [W],
    ) -> Result<Vec<JobReply>, Memory>
        requires does { does self.now }
        requires wired { (0 < length wires.old) × (length wires.old ≤ 16) }
        requires sendable { All (λ e. is_sendable e ≡ true) endpoints.now }
        requires within { All (λ j. j.at < length endpoints.now) jobs.now }
        requires few { length jobs.now < 4294967296 }
        ensures { WiresDidOver (seen W.Wire wires.old wires.new) endpoints.now jobs.now (all_replies result) };
}
