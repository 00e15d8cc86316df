//! Why a document, or a part of one, can't be read.

use fx_terms::Memory;
use std::alloc::{AllocError, AllocFailed};

/// Why bytes are no document. Lines and columns count from 1, and columns count characters.
#[derive(Clone, Copy, Debug, PartialEq, Eq)]
pub enum NtError {
    /// The bytes are not UTF-8: this is the place of the first byte such that no UTF-8 begins with the bytes up to it, or
    /// the number of bytes where they end inside a character.
    BadUtf8 { place: u64 },
    /// No line of the grammar begins with the line's characters up to this one, or the line ends too early, and this is one
    /// past its end; or at this backslash an escape names a character that isn't allowed; or the datatype that begins here
    /// is rdf:langString.
    Bad { line: u64, column: u64 },
    /// A blank node stands in the place of a subject or an object.
    Blank { line: u64, column: u64 },
    /// The IRI that begins here is not absolute.
    Relative { line: u64, column: u64 },
    /// Memory ran out.
    Memory,
}

/// What is wrong at a place of a line.
#[derive(Clone, Copy)]
pub enum Fault {
    Bad,
    Blank,
    Relative,
}

/// Why a line's reading stops.
#[derive(Clone, Copy)]
pub enum Stop {
    /// A fault, so many bytes behind the beginning of the line.
    At(Fault, usize),
    /// Memory ran out.
    Memory,
}

impl From<AllocError> for Stop {
    ghost use Rattle.std.specs.Prelude.{◌≡◌};
    ghost use Rattle.fx_ntriples.specs.declared.faults.Stop.TheVariants.{Memory};

    ghost from_gives = { λ _ e. e ≡ Memory };

    fn from(_error: AllocError) -> Stop {
        Stop::Memory
    }
}

impl<T: Drop> From<AllocFailed<T>> for Stop {
    ghost use Rattle.std.specs.Prelude.{◌≡◌};
    ghost use Rattle.fx_ntriples.specs.declared.faults.Stop.TheVariants.{Memory};

    ghost from_gives = { λ _ e. e ≡ Memory };

    fn from(_error: AllocFailed<T>) -> Stop {
        Stop::Memory
    }
}

impl From<Memory> for Stop {
    ghost use Rattle.std.specs.Prelude.{◌≡◌};
    ghost use Rattle.fx_ntriples.specs.declared.faults.Stop.TheVariants.{Memory as NoMemory};

    ghost from_gives = { λ _ e. e ≡ NoMemory };

    fn from(_error: Memory) -> Stop {
        Stop::Memory
    }
}
