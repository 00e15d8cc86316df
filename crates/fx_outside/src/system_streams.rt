//! A sink over any writer of std.
ghost use Rattle.std.specs.Prelude.{◌≡◌, ◌<◌, ◌≤◌, length, IfOk};
ghost use Rattle.std.specs.Io.KnownBytes.{WriteAppends};
ghost use Rattle.fx_outside.specs.SystemStreams.{faults_of_sink, writer_of};

use crate::streams::{Ends, Sink, WriteFailed};
use std::io::{ErrorKind, Write};

/// How many times in a row a read or write that was interrupted is tried.
pub(crate) const TRIES: u64 = 1000;

/// A writer, as standard output or a file, with a count of its faults. It tells nothing of what it holds, but what a write did to the
/// writer, where that one tells.
#[derive(Drop)]
pub struct StdSink<W> {
    writer: W,
    faults: u64,
}

impl<W> StdSink<W> {
    /// A sink that writes to this writer, with no fault yet.
    pub fn new(writer: W) -> StdSink<W>
        ensures faultless { faults_of_sink result ≡ 0 }
        ensures over { writer_of result ≡ writer }
    {
        StdSink { writer, faults: 0 }
    }
}

impl<W: Write> Ends for StdSink<W> {
    ghost use Rattle.std.specs.Prelude.{false, []};
    ghost use Rattle.fx_outside.specs.SystemStreams.{faults_of_sink};

    ghost tells_left = { false };

    ghost left = { λ _. [] };

    ghost tells_held = { false };

    ghost held = { λ _. [] };

    ghost read_faults = { λ _. 0 };

    ghost write_faults = { λ sink. faults_of_sink sink };
}

impl<W: Write> Sink for StdSink<W> {
    ghost use Rattle.std.specs.Prelude.{◌<◌, IfOk, IsErr};
    ghost use Rattle.std.specs.Io.KnownBytes.{WriteAppends};
    ghost use Rattle.fx_outside.specs.Faults.{HasRisen, IsOneMore};
    ghost use Rattle.fx_outside.specs.SystemStreams.{faults_of_sink, writer_of};

    /// Writes bytes from the front of a piece to the writer, and gives their number. A writer that tells what it holds, holds these
    /// behind what it held.
    ///
    /// `WriteFailed` comes where the writer failed, took no byte of a non-empty piece, or was interrupted 1000 times in a row. A
    /// writer that tells what it holds, holds the same then.
    fn write(&mut self, piece: &[u8]) -> Result<usize, WriteFailed>
        ensures within { IfOk result (λ n. n ≤ length piece.now) }
        ensures some { 0 < length piece.now → IfOk result (λ n. 0 < n) }
        ensures bytes { WriteAppends (W.contents (writer_of self.old)) (W.contents (writer_of self.new)) result piece.now }
        ensures kept { faults_of_sink self.old ≤ faults_of_sink self.new }
        ensures failed { IsErr result → HasRisen (faults_of_sink self.old) (faults_of_sink self.new) }
        ensures counted { IsErr result → IsOneMore (faults_of_sink self.old) (faults_of_sink self.new) }
        ensures faultless { IfOk result (λ _. faults_of_sink self.new ≡ faults_of_sink self.old) }
    {
        let written = write_some(&mut self.writer, piece);
        if written.is_err() {
            self.faults = self.faults.saturating_add(1);
        }
        written
    }
}

// Writes some of a piece. It fails where the writer failed, took no byte, or was interrupted each time.
pub(crate) fn write_some<W: Write>(writer: &mut W, piece: &[u8]) -> Result<usize, WriteFailed>
    ensures within { IfOk result (λ n. n ≤ length piece.now) }
    ensures some { 0 < length piece.now → IfOk result (λ n. 0 < n) }
    ensures bytes { WriteAppends (W.contents writer.old) (W.contents writer.new) result piece.now }
{
    for _ in 0..TRIES {
        match writer.write(piece) {
            Ok(count) => {
                if count == 0 && !piece.is_empty() {
                    return Err(WriteFailed);
                }
                return Ok(count);
            }
            Err(error) => {
                if error.kind() != ErrorKind::Interrupted {
                    return Err(WriteFailed);
                }
            }
        }
    }
    Err(WriteFailed)
}
