//! How the mediator's requests are made: by calls that a caller gives, as by those that start threads.

use fx_algebra::{Row, Solution, Unit};
use fx_flows::FlowError;
use fx_outside::Endpoint;
use fx_pool::{Job, JobReply};
use fx_services::DoesJobs;
use fx_side_by_side::DoesFlows;
use fx_terms::{Items, Memory};
use fx_wire::Wire;
use std::alloc::Global;

/// Jobs are done and runs are asked for by these calls.
#[derive(Drop)]
pub(crate) struct ByCalls<J, F, S> {
    pub(crate) jobs: J,
    pub(crate) flow: F,
    pub(crate) side_by_side: S,
}

impl<
    W: Wire,
    J: Fn(Global, &[Endpoint], &[Job], &mut [W]) -> Result<Vec<JobReply>, Memory>,
    F,
    S,
> DoesJobs<W> for ByCalls<J, F, S> {
    ghost use Rattle.std.specs.Prelude.{◌<◌, ◌≤◌, ◌≡◌, All, length, true};
    ghost use Rattle.fx_outside.specs.Endpoints.{is_sendable};
    ghost use Rattle.fx_pool.specs.Runs.{WiresDidOver, all_replies};
    ghost use Rattle.fx_traffic.specs.Gains.{seen};

    ghost does = { λ h. ((a : _) (es js : _) (w : _) → (0 < length w.now) → (length w.now ≤ 16) → All (λ e. is_sendable e ≡ true) es.now
        → All (λ j. j.at < length es.now) js.now → (length js.now < 4294967296) → J.pre h.jobs a es js w)
        × ((a : _) (es js : _) (w : _) (r : _) (v : _)
        → (0 < length w.now) → (length w.now ≤ 16) → All (λ e. is_sendable e ≡ true) es.now
        → All (λ j. j.at < length es.now) js.now → (length js.now < 4294967296) → J.post h.jobs a es js w r v
        → WiresDidOver (seen W.Wire w.now v.now) es.now js.now (all_replies r)) };

    fn run_jobs(
        &self,
        alloc: Global,
        endpoints: &[Endpoint],
        jobs: &[Job],
        wires: &mut [W],
    ) -> Result<Vec<JobReply>, Memory> {
        (self.jobs)(alloc, endpoints, jobs, wires)
    }
}

impl<
    W: Wire,
    J,
    F: Fn(Global, &[Endpoint], &[Unit], &[Solution], u32, &mut [W]) -> Result<Vec<Row>, FlowError>,
    S: Fn(
        Global,
        &[Endpoint],
        &[Items<Unit>],
        u32,
        &mut [W],
    ) -> Result<Vec<Result<Items<Row>, FlowError>>, Memory>,
> DoesFlows<W> for ByCalls<J, F, S> {
    ghost use Rattle.std.specs.Prelude.{ℕ, ◌<◌, ◌≤◌, ◌≡◌, All, length, true};
    ghost use Rattle.fx_outside.specs.Endpoints.{is_sendable};
    ghost use Rattle.fx_spelling.specs.Units.{IsFit};
    ghost use Rattle.fx_steps.specs.Steps.{numbered};
    ghost use Rattle.fx_flows.specs.Flows.{rows_in};
    ghost use Rattle.fx_flows.specs.RunFlows.{RunFlowedOver};
    ghost use Rattle.fx_side_by_side.specs.SideBySide.{CanAsk, SideBySideOver, results_in};
    ghost use Rattle.fx_traffic.specs.Gains.{seen};

    ghost flows = { λ h. ((a : _) (es us rows : _) (n : ℕ) (w : _) → (0 < length w.now) → (length w.now ≤ 16) → All (λ e. is_sendable e ≡ true) es.now
        → (0 < length us.now) → All IsFit us.now → (0 < n) → (n ≤ 64)
        → All (λ u. All (λ at. at < length es.now) u.members) us.now → F.pre h.flow a es us rows n w)
        × ((a : _) (es us rows : _) (n : ℕ) (w : _) (r : _) (v : _)
        → (0 < length w.now) → (length w.now ≤ 16) → All (λ e. is_sendable e ≡ true) es.now
        → (0 < length us.now) → All IsFit us.now → (0 < n) → (n ≤ 64)
        → All (λ u. All (λ at. at < length es.now) u.members) us.now → F.post h.flow a es us rows n w r v
        → RunFlowedOver (seen W.Wire w.now v.now) es.now us.now n (numbered 0 rows.now) (rows_in r))
        × ((a : _) (es runs : _) (n : ℕ) (w : _) → (0 < length w.now) → (length w.now ≤ 16) → All (λ e. is_sendable e ≡ true) es.now
        → (0 < n) → (n ≤ 64) → All (CanAsk (length es.now)) runs.now → S.pre h.side_by_side a es runs n w)
        × ((a : _) (es runs : _) (n : ℕ) (w : _) (r : _) (v : _)
        → (0 < length w.now) → (length w.now ≤ 16) → All (λ e. is_sendable e ≡ true) es.now
        → (0 < n) → (n ≤ 64) → All (CanAsk (length es.now)) runs.now → S.post h.side_by_side a es runs n w r v
        → SideBySideOver (seen W.Wire w.now v.now) es.now runs.now n (results_in r)) };

    fn run_flow(
        &self,
        alloc: Global,
        endpoints: &[Endpoint],
        units: &[Unit],
        rows: &[Solution],
        block: u32,
        wires: &mut [W],
    ) -> Result<Vec<Row>, FlowError> {
        (self.flow)(alloc, endpoints, units, rows, block, wires)
    }

    fn run_side_by_side(
        &self,
        alloc: Global,
        endpoints: &[Endpoint],
        runs: &[Items<Unit>],
        block: u32,
        wires: &mut [W],
    ) -> Result<Vec<Result<Items<Row>, FlowError>>, Memory> {
        (self.side_by_side)(alloc, endpoints, runs, block, wires)
    }
}
