//! Why a walk gives no rows.
use fx_flows::FlowError;
use fx_terms::Memory;

/// Why there are no rows.
#[derive(Drop)]
pub(crate) enum RowsError {
    /// A batch of a run was refused, or memory ran out.
    Flow(FlowError),
    /// An occurrence of SERVICE has none.
    Refused,
}

impl From<Memory> for RowsError {
    ghost use Rattle.std.specs.Prelude.{◌≡◌};
    ghost use Rattle.fx_flows.specs.declared.flows.FlowError.TheVariants as flow;
    ghost use Rattle.fx_engine.specs.declared.rows.RowsError.TheVariants.{Flow};

    ghost from_gives = { λ _ e. e ≡ Flow flow.Memory };

    fn from(_error: Memory) -> RowsError {
        RowsError::Flow(FlowError::Memory)
    }
}
