//! Why reading stops.

use std::alloc::{AllocError, AllocFailed};

/// Why the reading of a piece stops.
#[derive(Clone, Copy)]
pub enum Stop {
    /// The bytes are refused where so many of them are left.
    At(usize),
    /// Memory ran out.
    Memory,
}

impl From<AllocError> for Stop {
    ghost use Rattle.std.specs.Prelude.{◌≡◌};
    ghost use Rattle.fx_tape.specs.declared.faults.Stop.TheVariants.{Memory};

    ghost from_gives = { λ _ e. e ≡ Memory };

    fn from(_error: AllocError) -> Stop {
        Stop::Memory
    }
}

impl<T: Drop> From<AllocFailed<T>> for Stop {
    ghost use Rattle.std.specs.Prelude.{◌≡◌};
    ghost use Rattle.fx_tape.specs.declared.faults.Stop.TheVariants.{Memory};

    ghost from_gives = { λ _ e. e ≡ Memory };

    fn from(_error: AllocFailed<T>) -> Stop {
        Stop::Memory
    }
}
