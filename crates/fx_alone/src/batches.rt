//! The rows behind one unit, asked for over one wire, batch after batch.
ghost use Rattle.std.specs.Prelude.{◌≡◌, ◌↔◌, ◌<◌, ◌≤◌, ◌++◌, [], ◌∷◌, All, IsTrue, length, true};
ghost use Rattle.fx_outside.specs.Endpoints.{is_sendable};
ghost use Rattle.fx_spelling.specs.Units.{IsFit};
ghost use Rattle.fx_flows.specs.Flows.{rows_in};
ghost use Rattle.fx_flows.specs.RunFlows.{RunFlowedOver};
ghost use Rattle.fx_flows.specs.Teams.{StepAskedOver};
ghost use Rattle.fx_traffic.specs.Batches.{IsSized};
ghost use Rattle.fx_traffic.specs.Gains.{seen};

use fx_algebra::{Row, Unit};
use fx_flows::FlowError;
use fx_flows::steps::Step;
use fx_outside::Endpoint;
use fx_wire::Wire;
use std::alloc::Global;

/// The rows behind a unit that these rows enter: its members are asked for batches of `block` rows, and the last for the rest.
pub(crate) fn ask_unit<W: Wire>(
    alloc: Global,
    endpoints: &[Endpoint],
    unit: &Unit,
    rows: &[Row],
    block: u64,
    wires: &mut [W],
) -> Result<Vec<Row>, FlowError>
    requires wired { 0 < length wires.old }
    requires sendable { All (λ e. is_sendable e ≡ true) endpoints.now }
    requires fit { IsFit unit.now }
    requires block { (0 < block) × (block ≤ 64) }
    requires within { All (λ at. at < length endpoints.now) unit.now.members }
    ensures { RunFlowedOver (seen W.Wire wires.old wires.new) endpoints.now (unit.now ∷ []) block rows.now (rows_in result) }
{
    let mut made = Vec::new(alloc);
    let mut left = rows;
    while !is_none(left) {
        let (batch, others) = batch_of(left, block);
        match ask_batch(alloc, endpoints, unit, batch, wires) {
            Err(error) => return Err(error),
            Ok(rows) => {
                let mut rows = rows;
                if made.append(&mut rows).is_err() {
                    return Err(FlowError::Memory);
                }
            }
        }
        left = others;
    }
    Ok(made)
}

fn is_none(rows: &[Row]) -> bool
    ensures { IsTrue result ↔ (rows.now ≡ []) }
{
    rows.is_empty()
}

// The first of these rows, as many as a batch may have, and the others.
fn batch_of(rows: &[Row], block: u64) -> (&[Row], &[Row])
    requires some { 0 < length rows.now }
    requires block { 0 < block }
    ensures whole { rows.now ≡ result.0.now ++ result.1.now }
    ensures sized { IsSized block result.0.now }
    ensures full { 0 < length result.1.now → length result.0.now ≡ block }
{
    rows.split_at((rows.len() as u64).min(block) as usize)
}

// What the members of the unit have for one batch, over the first of the wires.
fn ask_batch<W: Wire>(
    alloc: Global,
    endpoints: &[Endpoint],
    unit: &Unit,
    rows: &[Row],
    wires: &mut [W],
) -> Result<Vec<Row>, FlowError>
    requires wired { 0 < length wires.old }
    requires sendable { All (λ e. is_sendable e ≡ true) endpoints.now }
    requires fit { IsFit unit.now }
    requires few { length rows.now ≤ 64 }
    requires within { All (λ at. at < length endpoints.now) unit.now.members }
    ensures { StepAskedOver (seen W.Wire wires.old wires.new) endpoints.now unit.now (rows.now ∷ []) (rows_in result) }
{
    unit.ask(alloc, &mut wires[0], endpoints, rows)
}
