//! Why an answer is none to a VALUES block.

use fx_terms::Memory;
use std::alloc::{AllocError, AllocFailed};

/// Why nothing is read of an answer to a VALUES block. Of its rows the first that has a fault is named, by its number from 0, and of the
/// faults of a row the first in this order.
#[derive(Clone, Copy, PartialEq, Eq)]
pub enum ValuesError {
    /// The answer is a truth value. It comes exactly there.
    NotTable,
    /// A row binds a name that is no column of the block.
    Foreign { row: u64 },
    /// A row leaves a column of the block unbound.
    Partial { row: u64 },
    /// A row has a number that is none of a row that was sent, or under the other name of a variable another term than that row's own.
    Mixed { row: u64 },
    /// Memory ran out.
    Memory,
}

impl From<AllocError> for ValuesError {
    ghost use Rattle.std.specs.Prelude.{◌≡◌};
    ghost use Rattle.fx_values.specs.declared.faults.ValuesError.TheVariants as error;

    ghost from_gives = { λ _ e. e ≡ error.Memory };

    fn from(_error: AllocError) -> ValuesError {
        ValuesError::Memory
    }
}

impl<T: Drop> From<AllocFailed<T>> for ValuesError {
    ghost use Rattle.std.specs.Prelude.{◌≡◌};
    ghost use Rattle.fx_values.specs.declared.faults.ValuesError.TheVariants as error;

    ghost from_gives = { λ _ e. e ≡ error.Memory };

    fn from(_error: AllocFailed<T>) -> ValuesError {
        ValuesError::Memory
    }
}

impl From<Memory> for ValuesError {
    ghost use Rattle.std.specs.Prelude.{◌≡◌};
    ghost use Rattle.fx_values.specs.declared.faults.ValuesError.TheVariants as error;

    ghost from_gives = { λ _ e. e ≡ error.Memory };

    fn from(_error: Memory) -> ValuesError {
        ValuesError::Memory
    }
}

/// What is wrong with a row.
#[derive(Clone, Copy)]
pub(crate) enum RowFault {
    /// It binds a name that wasn't asked for.
    Foreign,
    /// It leaves a column unbound.
    Partial,
    /// It is of no row that was sent.
    Mixed,
}
