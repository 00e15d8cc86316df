//! A link over any stream of std that is read from and written to.
ghost use Rattle.std.specs.Prelude.{◌≡◌};

use crate::reading::read_some;
use crate::streams::{Ends, ReadFailed, Sink, Source, WriteFailed};
use crate::system_streams::write_some;
use std::io::{Read, Write};

/// A stream, as a connection, with counts of its faults. It tells nothing of what is left and what it holds, but what a read or a write
/// did to the stream, where that one tells.
#[derive(Drop)]
pub struct StdLink<S> {
    stream: S,
    read_faults: u64,
    write_faults: u64,
}

impl<S> StdLink<S> {
    ghost use Rattle.fx_outside.specs.SystemLinks.{IsFaultless, stream_of};

    /// A link over this stream, with no fault yet.
    pub fn new(stream: S) -> StdLink<S>
        ensures faultless { IsFaultless result }
        ensures over { stream_of result ≡ stream }
    {
        StdLink {
            stream,
            read_faults: 0,
            write_faults: 0,
        }
    }

    /// The stream.
    pub fn into_stream(self) -> S
        ensures { result ≡ stream_of self }
    {
        self.stream
    }
}

impl<S: Read + Write> Ends for StdLink<S> {
    ghost use Rattle.std.specs.Prelude.{false, []};
    ghost use Rattle.fx_outside.specs.SystemLinks.{read_faults_of, write_faults_of};

    ghost tells_left = { false };

    ghost left = { λ _. [] };

    ghost tells_held = { false };

    ghost held = { λ _. [] };

    ghost read_faults = { λ link. read_faults_of link };

    ghost write_faults = { λ link. write_faults_of link };
}

impl<S: Read + Write> Source for StdLink<S> {
    ghost use Rattle.std.specs.Prelude.{◌≤◌, IfOk, IsErr, length};
    ghost use Rattle.std.specs.Io.KnownBytes.{ReadConsumes};
    ghost use Rattle.fx_outside.specs.Faults.{HasRisen, IsOneMore};
    ghost use Rattle.fx_outside.specs.SystemLinks.{read_faults_of, stream_of, write_faults_of};

    /// Reads bytes of the stream into the front of `into`, and gives their number. Where the stream tells what remains, they are the
    /// first of that, and 0 comes only at its end, where `into` isn't empty.
    ///
    /// `ReadFailed` comes where the stream failed, or was interrupted 1000 times in a row. Where it tells what remains, it is the same
    /// then.
    fn read(&mut self, into: &mut [u8]) -> Result<usize, ReadFailed>
        ensures within { IfOk result (λ n. n ≤ length into.old) }
        ensures bytes { ReadConsumes (S.remaining (stream_of self.old)) (S.remaining (stream_of self.new)) result into.new }
        ensures kept { read_faults_of self.old ≤ read_faults_of self.new }
        ensures failed { IsErr result → HasRisen (read_faults_of self.old) (read_faults_of self.new) }
        ensures counted { IsErr result → IsOneMore (read_faults_of self.old) (read_faults_of self.new) }
        ensures faultless { IfOk result (λ _. read_faults_of self.new ≡ read_faults_of self.old) }
        ensures writes { write_faults_of self.new ≡ write_faults_of self.old }
    {
        if let Ok(count) = read_some(&mut self.stream, into) {
            return Ok(count);
        }
        self.read_faults = self.read_faults.saturating_add(1);
        Err(ReadFailed)
    }
}

impl<S: Read + Write> Sink for StdLink<S> {
    ghost use Rattle.std.specs.Prelude.{◌<◌, ◌≤◌, IfOk, IsErr, length};
    ghost use Rattle.std.specs.Io.KnownBytes.{WriteAppends};
    ghost use Rattle.fx_outside.specs.Faults.{HasRisen, IsOneMore};
    ghost use Rattle.fx_outside.specs.SystemLinks.{read_faults_of, stream_of, write_faults_of};

    /// Writes bytes from the front of a piece to the stream, and gives their number. A stream that tells what it holds, holds these
    /// behind what it held.
    ///
    /// `WriteFailed` comes where the stream failed, took no byte of a non-empty piece, or was interrupted 1000 times in a row. A
    /// stream that tells what it holds, holds the same then.
    fn write(&mut self, piece: &[u8]) -> Result<usize, WriteFailed>
        ensures within { IfOk result (λ n. n ≤ length piece.now) }
        ensures some { 0 < length piece.now → IfOk result (λ n. 0 < n) }
        ensures bytes { WriteAppends (S.contents (stream_of self.old)) (S.contents (stream_of self.new)) result piece.now }
        ensures kept { write_faults_of self.old ≤ write_faults_of self.new }
        ensures failed { IsErr result → HasRisen (write_faults_of self.old) (write_faults_of self.new) }
        ensures counted { IsErr result → IsOneMore (write_faults_of self.old) (write_faults_of self.new) }
        ensures faultless { IfOk result (λ _. write_faults_of self.new ≡ write_faults_of self.old) }
        ensures reads { read_faults_of self.new ≡ read_faults_of self.old }
    {
        let written = write_some(&mut self.stream, piece);
        if written.is_err() {
            self.write_faults = self.write_faults.saturating_add(1);
        }
        written
    }
}
