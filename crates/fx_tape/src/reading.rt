//! Tapes are read.
ghost use Rattle.std.specs.Prelude.{◌≡◌, ◌⊎◌, ◌≤◌, ◌-◌, ℕ, Err, MatchResult, length};
ghost use Rattle.fx_tape.specs.Exchanges as spec;
ghost use Rattle.fx_tape.specs.Refusals.{IsReading, StopsTape};
ghost use Rattle.fx_tape.specs.Spellings.{Reads};
ghost use Rattle.fx_tape.specs.Tapes.{IsTape};
ghost use Rattle.fx_tape.specs.declared.tapes.Tape.{Tape as TapeParts};

use crate::exchanges::exchanges;
use crate::faults::Stop;
use crate::pieces::{number, word};
use crate::tapes::{Tape, TapeError};
use fx_terms::Items;
use std::alloc::Global;

/// The tape that bytes are.
///
/// `Form` comes exactly where the bytes are no tape: at the first byte such that no tape begins with the bytes up to and with it, or at
/// their number where they end too early. The one copy of the bytes is that into the tape, and no memory is taken for a length that is said before
/// so many bytes are there.
pub fn read_tape(alloc: Global, bytes: &[u8]) -> Result<Tape, TapeError>
    // What is read is a tape in range of which the bytes are what is written, or the bytes stop being a tape there.
    ensures found { IsReading bytes.now result }

    // The bytes of a tape in range are read as it, and no others are.
    ensures only { (tape : TapeParts) → IsTape bytes.now tape → MatchResult result (λ t. t ≡ tape) (λ e. e ≡ TapeError.Memory) }

    // Bytes that stop being a tape are refused there.
    ensures refused { (place : ℕ) → StopsTape bytes.now place → (result ≡ Err (TapeError.Form place)) ⊎ (result ≡ Err TapeError.Memory) }
{
    read(alloc, bytes)
}

fn read(alloc: Global, bytes: &[u8]) -> Result<Tape, TapeError>
    ensures { IsReading bytes.now result }
{
    match tape(alloc, bytes) {
        Ok((tape, rest)) => {
            if rest.len() == 0 {
                Ok(tape)
            } else {
                Err(refused(bytes, rest.len()))
            }
        }
        Err(Stop::At(left)) => Err(refused(bytes, left)),
        Err(Stop::Memory) => Err(TapeError::Memory),
    }
}

// The refusal where so many bytes are left.
fn refused(bytes: &[u8], left: usize) -> TapeError
    requires { left ≤ length bytes.now }
    ensures { result ≡ TapeError.Form (length bytes.now - left) }
{
    TapeError::Form {
        place: (bytes.len() - left) as u64,
    }
}

// The tape that bytes begin with, and what is behind it.
fn tape<'a>(alloc: Global, bytes: &'a [u8]) -> Result<(Tape, &'a [u8]), Stop>
    ensures { Reads (λ x. (x.0, x.1.now)) spec.tape bytes.now result }
{
    let rest = word(bytes, b"fedx transcript 1 block ")?;
    let (block, rest) = number(rest, 1, 64, b'\n')?;
    let (exchanges, rest) = exchanges(alloc, rest)?;
    let tape = Tape {
        block,
        exchanges: Items::from_vec(exchanges),
    };
    Ok((tape, rest))
}
