//! A stream that is read in large pieces, however few bytes are asked for.

use std::alloc::Global;
use std::io;
use std::io::{BufReader, Read, Write};

/// A stream that is read ahead of what is asked for, up to 8,192 bytes at once, so that who asks for one byte after the other doesn't
/// ask the system each time. What is left of it is what was read ahead and then what is left of the stream. What is written goes
/// to the stream at once.
#[derive(Drop)]
pub struct ReadAhead<S> {
    reader: BufReader<S>,
}

impl<S: Read> ReadAhead<S> {
    ghost use Rattle.std.specs.Prelude.{◌≡◌, IfOk};
    ghost use Rattle.fx_outside.specs.ReadsAhead.{stream_behind};

    /// The stream, with nothing read ahead yet. `OutOfMemory` comes where memory runs out.
    pub fn new(alloc: Global, stream: S) -> io::Result<ReadAhead<S>>
    where
        S: Drop,
        ensures { IfOk result (λ ahead. stream_behind ahead ≡ stream) }
    {
        Ok(ReadAhead {
            reader: BufReader::new(alloc, stream)?,
        })
    }

    /// The stream. What was read ahead of what was asked for is lost.
    pub fn into_stream(self) -> S
        ensures { result ≡ stream_behind self }
    {
        self.reader.into_inner()
    }
}

impl<S: Read> Read for ReadAhead<S> {
    ghost use Rattle.fx_outside.specs.ReadsAhead.{left_of};

    ghost remaining = { left_of S.remaining };

    fn read(&mut self, into: &mut [u8]) -> io::Result<usize> {
        self.reader.read(into)
    }
}

impl<S: Read + Write> Write for ReadAhead<S> {
    ghost use Rattle.fx_outside.specs.ReadsAhead.{stream_behind};

    ghost contents = { λ ahead. S.contents (stream_behind ahead) };

    fn write(&mut self, piece: &[u8]) -> io::Result<usize> {
        self.reader.get_mut().write(piece)
    }

    fn flush(&mut self) -> io::Result<()> {
        self.reader.get_mut().flush()
    }
}
