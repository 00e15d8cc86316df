//! A stream whose peer isn't waited for without end.

use std::io;
use std::io::{ErrorKind, Read, Write};
use std::net::OpenStream;
use std::time::{Clock, Duration, Instant};

/// A connection whose peer has so long for all that it sends, from when the connection was taken in, and each time so long to take
/// anything of what is written. What it tells of its bytes is what the stream tells.
///
/// A read behind that time fails, and so does one during which it ends; a write fails where the peer took nothing in that time.
#[derive(Drop)]
pub struct Patient<S, C> {
    stream: S,
    clock: C,
    since: Instant,
    patience: Duration,
}

impl<S, C: Clock> Patient<S, C> {
    ghost use Rattle.std.specs.Prelude.{◌≡◌, IfOk};
    ghost use Rattle.fx_outside.specs.Patience.{stream_within};

    /// The connection over this stream, whose time begins now. An error of the clock is handed on.
    pub fn new(stream: S, clock: C, patience: Duration) -> io::Result<Patient<S, C>>
    where
        S: Drop,
        C: Drop,
        ensures { IfOk result (λ patient. stream_within patient ≡ stream) }
    {
        let since = Instant::now(&clock)?;
        Ok(Patient {
            stream,
            clock,
            since,
            patience,
        })
    }

    /// The stream.
    pub fn into_stream(self) -> S
    where
        C: Drop,
        ensures { result ≡ stream_within self }
    {
        self.stream
    }

    // What is left of the peer's time to send. It fails where that is over.
    fn left(&self) -> io::Result<Duration> {
        let left = self
            .patience
            .saturating_sub(self.since.elapsed(&self.clock)?);
        if left.is_zero() {
            return Err(io::Error::from(ErrorKind::TimedOut));
        }
        Ok(left)
    }
}

impl<S: Read + OpenStream, C: Clock> Read for Patient<S, C> {
    ghost use Rattle.fx_outside.specs.Patience.{stream_within};

    ghost remaining = { λ patient. S.remaining (stream_within patient) };

    fn read(&mut self, into: &mut [u8]) -> io::Result<usize> {
        let left = self.left()?;
        self.stream.set_read_timeout(Some(left))?;
        self.stream.read(into)
    }
}

impl<S: Write + OpenStream, C: Clock> Write for Patient<S, C> {
    ghost use Rattle.fx_outside.specs.Patience.{stream_within};

    ghost contents = { λ patient. S.contents (stream_within patient) };

    fn write(&mut self, piece: &[u8]) -> io::Result<usize> {
        self.stream.set_write_timeout(Some(self.patience))?;
        self.stream.write(piece)
    }

    fn flush(&mut self) -> io::Result<()> {
        self.stream.flush()
    }
}
