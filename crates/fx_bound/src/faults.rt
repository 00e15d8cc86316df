//! Why an answer is none of a batch.

use fx_terms::Memory;
use std::alloc::{AllocError, AllocFailed};

/// Why nothing is read of an answer to a batch. Of its rows the first that has a fault is named, by its number from 0, and of the
/// faults of a row the first in this order.
#[derive(Clone, Copy, PartialEq, Eq)]
pub enum BatchError {
    /// The answer is a truth value. It comes exactly there.
    NotTable,
    /// A row binds a name that is no column of the batch.
    Foreign { row: u64 },
    /// A row binds columns of two branches.
    Mixed { row: u64 },
    /// A row binds no name, or not all columns of its branch.
    Partial { row: u64 },
    /// Memory ran out.
    Memory,
}

impl From<AllocError> for BatchError {
    ghost use Rattle.std.specs.Prelude.{◌≡◌};
    ghost use Rattle.fx_bound.specs.declared.faults.BatchError.TheVariants as error;

    ghost from_gives = { λ _ e. e ≡ error.Memory };

    fn from(_error: AllocError) -> BatchError {
        BatchError::Memory
    }
}

impl<T: Drop> From<AllocFailed<T>> for BatchError {
    ghost use Rattle.std.specs.Prelude.{◌≡◌};
    ghost use Rattle.fx_bound.specs.declared.faults.BatchError.TheVariants as error;

    ghost from_gives = { λ _ e. e ≡ error.Memory };

    fn from(_error: AllocFailed<T>) -> BatchError {
        BatchError::Memory
    }
}

impl From<Memory> for BatchError {
    ghost use Rattle.std.specs.Prelude.{◌≡◌};
    ghost use Rattle.fx_bound.specs.declared.faults.BatchError.TheVariants as error;

    ghost from_gives = { λ _ e. e ≡ error.Memory };

    fn from(_error: Memory) -> BatchError {
        BatchError::Memory
    }
}

/// What is wrong with a row.
#[derive(Clone, Copy)]
pub(crate) enum RowFault {
    /// It binds a name that wasn't asked for.
    Foreign,
    /// It binds columns of two branches.
    Mixed,
    /// It binds none, or not all of its branch.
    Partial,
}
