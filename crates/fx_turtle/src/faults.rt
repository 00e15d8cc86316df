//! Why symbols aren't read.

use crate::refusals::TurtleKind;
use fx_terms::Memory;
use std::alloc::{AllocError, AllocFailed};

/// A refusal, with the number of symbols from its place on; or want of memory.
#[derive(Clone, Copy)]
pub enum Fault {
    Refused { why: TurtleKind, left: usize },
    Memory,
}

impl From<Memory> for Fault {
    ghost use Rattle.std.specs.Prelude.{◌≡◌};
    ghost use Rattle.fx_turtle.specs.declared.faults.Fault.TheVariants.{Memory as NoMemory};

    ghost from_gives = { λ _ e. e ≡ NoMemory };

    fn from(_error: Memory) -> Fault {
        Fault::Memory
    }
}

impl From<AllocError> for Fault {
    ghost use Rattle.std.specs.Prelude.{◌≡◌};
    ghost use Rattle.fx_turtle.specs.declared.faults.Fault.TheVariants.{Memory as NoMemory};

    ghost from_gives = { λ _ e. e ≡ NoMemory };

    fn from(_error: AllocError) -> Fault {
        Fault::Memory
    }
}

impl<T: Drop> From<AllocFailed<T>> for Fault {
    ghost use Rattle.std.specs.Prelude.{◌≡◌};
    ghost use Rattle.fx_turtle.specs.declared.faults.Fault.TheVariants.{Memory as NoMemory};

    ghost from_gives = { λ _ e. e ≡ NoMemory };

    fn from(_error: AllocFailed<T>) -> Fault {
        Fault::Memory
    }
}
