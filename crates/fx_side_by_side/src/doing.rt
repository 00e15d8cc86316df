//! How runs are asked for over wires.
ghost use Rattle.std.specs.Prelude.{◌≡◌, ◌<◌, ◌≤◌, All, length, true};
ghost use Rattle.fx_outside.specs.Endpoints.{is_sendable};
ghost use Rattle.fx_spelling.specs.Units.{IsFit};
ghost use Rattle.fx_steps.specs.Steps.{numbered};
ghost use Rattle.fx_flows.specs.Flows.{rows_in};
ghost use Rattle.fx_flows.specs.RunFlows.{RunFlowedOver};
ghost use Rattle.fx_side_by_side.specs.SideBySide.{CanAsk, SideBySideOver, results_in};
ghost use Rattle.fx_traffic.specs.Gains.{seen};

use fx_algebra::{Row, Solution, Unit};
use fx_flows::FlowError;
use fx_outside::Endpoint;
use fx_terms::{Items, Memory};
use fx_wire::Wire;
use std::alloc::Global;

/// How runs are asked for over wires: by threads, as `run_flow` of fx_flows and `run_side_by_side` do it, or without any.
pub trait DoesFlows<W: Wire> {
    /// This value asks for runs as it is to.
    ghost flows: { Self → Type 0 };

    /// The rows behind the units of a run that begins with these solutions, numbered from 0, with all that `run_flow` of fx_flows says of them.
    fn run_flow(
        &self,
        alloc: Global,
        endpoints: &[Endpoint],
        units: &[Unit],
        rows: &[Solution],
        block: u32,
        wires: &mut [W],
    ) -> Result<Vec<Row>, FlowError>
        requires flows { flows self.now }
        requires wired { (0 < length wires.old) × (length wires.old ≤ 16) }
        requires sendable { All (λ e. is_sendable e ≡ true) endpoints.now }
        requires some { 0 < length units.now }
        requires fit { All IsFit units.now }
        requires block { (0 < block) × (block ≤ 64) }
        requires within { All (λ u. All (λ at. at < length endpoints.now) u.members) units.now }
        ensures { RunFlowedOver (seen W.Wire wires.old wires.new) endpoints.now units.now block (numbered 0 rows.now) (rows_in result) };

    /// The rows behind each of several runs that take no rows, or why there are none, with all that `run_side_by_side` says of them.
    fn run_side_by_side(
        &self,
        alloc: Global,
        endpoints: &[Endpoint],
        runs: &[Items<Unit>],
        block: u32,
        wires: &mut [W],
    ) -> Result<Vec<Result<Items<Row>, FlowError>>, Memory>
        requires flows { flows self.now }
        requires wired { (0 < length wires.old) × (length wires.old ≤ 16) }
        requires sendable { All (λ e. is_sendable e ≡ true) endpoints.now }
        requires block { (0 < block) × (block ≤ 64) }
        requires runs { All (CanAsk (length endpoints.now)) runs.now }
        ensures { SideBySideOver (seen W.Wire wires.old wires.new) endpoints.now runs.now block (results_in result) };
}
