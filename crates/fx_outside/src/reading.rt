//! Reading from any reader of std.
ghost use Rattle.std.specs.Prelude.{◌≤◌, ◌<◌, IfOk, length, vec_len};
ghost use Rattle.std.specs.Io.KnownBytes.{Consumes, IsAtEnd, ReadConsumes};
ghost use Rattle.fx_outside.specs.Readers.{IsFrontOf};

use crate::system_streams::TRIES;
use std::alloc::Global;
use std::io;
use std::io::{ErrorKind, Read};

/// The first bytes that a reader gives, as many as `most`, or all where it has fewer: a read that gives less than it was asked for
/// is followed by another one, up to the end.
///
/// An error of the reader is handed on at the first read that fails; one that was only interrupted is tried again, 1000 times in a
/// row at most. `OutOfMemory` comes where memory runs out.
pub fn read_front<R: Read>(reader: &mut R, alloc: Global, most: usize) -> io::Result<Vec<u8>>
    ensures size { IfOk result (λ bytes. vec_len bytes ≤ most) }
    ensures front { IfOk result (λ bytes. IsFrontOf (R.remaining reader.old) most bytes.items) }
    ensures taken { IfOk result (λ bytes. Consumes (R.remaining reader.old) (R.remaining reader.new) bytes.items) }
    ensures ends { IfOk result (λ bytes. vec_len bytes < most → IsAtEnd (R.remaining reader.new)) }
{
    let mut bytes = Vec::new(alloc);
    let mut buffer = [0u8; 4096];
    for _ in 0..u64::MAX {
        let room = buffer.len().min(most - bytes.len());
        if room == 0 {
            return Ok(bytes);
        }
        let count = read_some(reader, &mut buffer[..room])?;
        if count == 0 {
            return Ok(bytes);
        }
        bytes.extend_from_slice(&buffer[..count])?;
    }
    Err(io::Error::from(ErrorKind::Other))
}

// Reads some bytes. A read that was interrupted is tried again, but not for ever.
pub(crate) fn read_some<R: Read>(reader: &mut R, into: &mut [u8]) -> io::Result<usize>
    ensures within { IfOk result (λ n. n ≤ length into.old) }
    ensures bytes { ReadConsumes (R.remaining reader.old) (R.remaining reader.new) result into.new }
{
    for _ in 1..TRIES {
        match reader.read(into) {
            Ok(count) => return Ok(count),
            Err(error) => {
                if error.kind() != ErrorKind::Interrupted {
                    return Err(error);
                }
            }
        }
    }
    reader.read(into)
}
