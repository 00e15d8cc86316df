//! Why a text is no registry.

use fx_terms::Memory;
use std::alloc::AllocFailed;

/// Why a text is no registry: the first line that is refused, counted from 1, and the first of these rules that it breaks.
#[derive(Clone, Copy, Debug, PartialEq, Eq)]
pub enum RegistryError {
    /// The line holds a byte that isn't UTF-8, or is neither empty nor a comment nor an entry.
    Bad { line: u64 },
    /// The line is a 65th entry.
    TooMany { line: u64 },
    /// An earlier entry has the same name.
    RepeatedName { line: u64 },
    /// An earlier URL reads to the same text (URL Standard, 4.5).
    RepeatedUrl { line: u64 },
    /// Memory ran out.
    Memory,
}

impl From<Memory> for RegistryError {
    ghost use Rattle.std.specs.Prelude.{◌≡◌};
    ghost use Rattle.fx_sources.specs.declared.errors.RegistryError.TheVariants.{Memory as no_memory};

    ghost from_gives = { λ _ e. e ≡ no_memory };

    fn from(_error: Memory) -> RegistryError {
        RegistryError::Memory
    }
}

impl<T: Drop> From<AllocFailed<T>> for RegistryError {
    ghost use Rattle.std.specs.Prelude.{◌≡◌};
    ghost use Rattle.fx_sources.specs.declared.errors.RegistryError.TheVariants.{Memory as no_memory};

    ghost from_gives = { λ _ e. e ≡ no_memory };

    fn from(_error: AllocFailed<T>) -> RegistryError {
        RegistryError::Memory
    }
}
