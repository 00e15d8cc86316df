//! What a worker asks for.
ghost use Rattle.std.specs.Prelude.{◌≡◌, ◌<◌, ◌≤◌, All, length, true};
ghost use Rattle.fx_algebra.specs.declared.units.Unit.{Unit as UnitParts};
ghost use Rattle.fx_outside.specs.Endpoints.{is_sendable};
ghost use Rattle.fx_spelling.specs.Units.{IsFit};
ghost use Rattle.fx_flows.specs.Flows.{AskedBatch, rows_in};

use crate::flows::{FlowError, ask_batch};
use fx_algebra::{Row, Unit};
use fx_outside::Endpoint;
use fx_wire::Wire;
use std::alloc::Global;

/// A step of a run that a worker asks for over its wire. What workers share may be shared by threads, which is shown once, where a type becomes
/// a step.
pub trait Step {
    /// The unit that it is.
    ghost unit: { Self → UnitParts };

    /// What the members of the unit have for rows, united.
    fn ask<W: Wire>(
        &self,
        alloc: Global,
        wire: &mut W,
        endpoints: &[Endpoint],
        rows: &[Row],
    ) -> Result<Vec<Row>, FlowError>
        requires sendable { All (λ e. is_sendable e ≡ true) endpoints.now }
        requires fit { IsFit (unit self.now) }
        requires few { length rows.now ≤ 64 }
        requires within { All (λ at. at < length endpoints.now) (unit self.now).members }
        ensures { AskedBatch W.counts_alone (W.seen wire.old) (W.seen wire.new)
            endpoints.now (record { unit = unit self.now; rows = rows.now }) (rows_in result) };
}

impl Step for Unit {
    ghost unit = { λ unit. unit };

    fn ask<W: Wire>(
        &self,
        alloc: Global,
        wire: &mut W,
        endpoints: &[Endpoint],
        rows: &[Row],
    ) -> Result<Vec<Row>, FlowError> {
        ask_batch(alloc, wire, endpoints, self, rows)
    }
}
