//! Jobs done and runs asked for without threads.

use crate::jobs::do_jobs;
use crate::runs::{ask_each, ask_run};
use fx_algebra::{Row, Solution, Unit};
use fx_flows::FlowError;
use fx_outside::Endpoint;
use fx_pool::{Job, JobReply};
use fx_services::DoesJobs;
use fx_side_by_side::DoesFlows;
use fx_terms::{Items, Memory};
use fx_wire::Wire;
use std::alloc::Global;

/// All is asked over the first of the wires, one request after another, by the thread that calls. The others stay as they are.
///
/// With it a wire of any type can be asked, also one that may not be sent to another thread: so a wire that asks inner wires is one itself.
#[derive(Clone, Copy, Drop)]
pub struct Alone;

impl<W: Wire> DoesJobs<W> for Alone {
    ghost does = { λ h. Unit {0} };

    /// Does the jobs in their order. Where memory runs out, those behind aren't done.
    fn run_jobs(
        &self,
        alloc: Global,
        endpoints: &[Endpoint],
        jobs: &[Job],
        wires: &mut [W],
    ) -> Result<Vec<JobReply>, Memory> {
        do_jobs(alloc, endpoints, jobs, wires)
    }
}

impl<W: Wire> DoesFlows<W> for Alone {
    ghost flows = { λ h. Unit {0} };

    /// Asks for the units in their order: for each the batches of the rows that enter it, in their order, each of its members in turn. The first refusal ends the run.
    fn run_flow(
        &self,
        alloc: Global,
        endpoints: &[Endpoint],
        units: &[Unit],
        rows: &[Solution],
        block: u32,
        wires: &mut [W],
    ) -> Result<Vec<Row>, FlowError> {
        ask_run(alloc, endpoints, units, rows, block, wires)
    }

    /// Asks for the runs in their order. One that is refused stops none of the others.
    fn run_side_by_side(
        &self,
        alloc: Global,
        endpoints: &[Endpoint],
        runs: &[Items<Unit>],
        block: u32,
        wires: &mut [W],
    ) -> Result<Vec<Result<Items<Row>, FlowError>>, Memory> {
        ask_each(alloc, endpoints, runs, block, wires)
    }
}
