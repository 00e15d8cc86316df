//! Streams of std. What they do is a function beside each test, which answers nothing where memory runs out.

use fx_outside::{
    ReadAhead, ReadFailed, Sink, Source, StdLink, StdSink, WriteFailed, read_front, write_all,
};
use std::alloc::Global;
use std::io;
use std::io::{ErrorKind, Read, Write};

#[test]
fn a_std_link_hands_on_and_counts(rt: HostRuntime) {
    assert!(rt; hands_on_and_counts());
}

#[test]
fn a_link_that_is_interrupted_reads_on_and_one_that_times_out_fails(rt: HostRuntime) {
    assert_eq!(rt; first_read_amiss(), None, "by the rows from 0");
}

#[test]
fn the_front_of_a_reader_is_read_in_as_many_reads_as_it_takes(rt: HostRuntime) {
    assert_eq!(rt; first_front_amiss(rt.alloc()), None, "by the rows from 0");
}

#[test]
fn a_stream_is_read_ahead_of_what_is_asked_for(rt: HostRuntime) {
    assert_eq!(rt; reads_ahead(rt.alloc()), Some(true));
}

#[test]
fn a_std_sink_hands_on_and_counts(rt: HostRuntime) {
    assert!(rt; takes_all(rt.alloc()));
    assert_eq!(rt; first_piece_amiss(), None, "by the rows from 0");
    assert!(rt; is_interrupted_at_most_so_often());
}

fn hands_on_and_counts() -> bool {
    let mut link = StdLink::new(that_fails(ErrorKind::BrokenPipe, 2));
    let mut into = [0u8; 4];
    link.read(&mut into) == Err(ReadFailed)
        && link.write(b"ab") == Err(WriteFailed)
        && link.read(&mut into) == Ok(1)
        && into == [7u8, 0, 0, 0]
        && link.write(b"ab") == Ok(2)
}

fn first_read_amiss() -> Option<usize> {
    let rows = [
        (ErrorKind::Interrupted, 999, Ok(1)),
        (ErrorKind::Interrupted, 1000, Err(ReadFailed)),
        (ErrorKind::TimedOut, 1, Err(ReadFailed)),
        (ErrorKind::WouldBlock, 1, Err(ReadFailed)),
    ];
    rows.iter()
        .position(|(kind, times, want)| read_once(*kind, *times) != *want)
}

fn read_once(kind: ErrorKind, times: u64) -> Result<usize, ReadFailed> {
    StdLink::new(that_fails(kind, times)).read(&mut [0u8; 4])
}

// The most bytes of a read, how often each is interrupted first, with how many bytes left it fails, the most that is read of eight
// bytes, and what comes of it.
fn first_front_amiss(alloc: Global) -> Option<usize> {
    let rows = [
        (3, 0, 9, 7, Some("abcdefg")),
        (1, 2, 9, 10, Some("abcdefgh")),
        (4, 999, 9, 8, Some("abcdefgh")),
        (4, 1000, 9, 10, None),
        (2, 0, 4, 10, None),
        (2, 0, 4, 4, Some("abcd")),
    ];
    rows.iter().position(|(step, times, stop, most, want)| {
        !gives_front(alloc, in_pieces(*step, *times, *stop), *most, *want)
    })
}

fn gives_front(alloc: Global, mut reader: Pieces, most: usize, want: Option<&str>) -> bool {
    match (read_front(&mut reader, alloc, most), want) {
        (Ok(found), Some(want)) => found.as_slice() == want.as_bytes(),
        (Err(_), None) => true,
        _ => false,
    }
}

// Whether one byte that is asked for takes the first five from the stream, and what is asked for next the other four of these.
fn reads_ahead(alloc: Global) -> Option<bool> {
    let mut ahead = ReadAhead::new(alloc, in_pieces(5, 0, 9)).ok()?;
    let mut one = [0u8; 1];
    let mut more = [0u8; 6];
    let is_first = ahead.read(&mut one).ok()? == 1 && &one == b"a";
    let are_next = ahead.read(&mut more).ok()? == 4 && &more == b"bcde\0\0";
    Some(is_first && are_next && ahead.into_stream().left == b"fgh".as_slice())
}

fn takes_all(alloc: Global) -> bool {
    let mut bytes = Vec::new(alloc);
    let written = write_all(&mut StdSink::new(&mut bytes), b"hello");
    written == Ok(()) && bytes.as_slice() == b"hello".as_slice()
}

fn first_piece_amiss() -> Option<usize> {
    let mut room = [0u8; 3];
    let mut sink = StdSink::new(room.as_mut_slice());
    let rows = [
        ("ab", Ok(2)),
        ("cd", Ok(1)),
        ("", Ok(0)),
        ("d", Err(WriteFailed)),
    ];
    rows.iter()
        .position(|(piece, want)| sink.write(piece.as_bytes()) != *want)
}

fn is_interrupted_at_most_so_often() -> bool {
    let mut broken = StdSink::new(that_fails(ErrorKind::BrokenPipe, 1));
    write_once(ErrorKind::Interrupted, 3) == Ok(2)
        && write_once(ErrorKind::Interrupted, u64::MAX) == Err(WriteFailed)
        && broken.write(b"ab") == Err(WriteFailed)
        && broken.write(b"ab") == Ok(2)
}

fn write_once(kind: ErrorKind, times: u64) -> Result<usize, WriteFailed> {
    StdSink::new(that_fails(kind, times)).write(b"ab")
}

fn that_fails(kind: ErrorKind, times: u64) -> Failing {
    Failing { kind, times }
}

fn in_pieces(step: usize, times: u64, stop: usize) -> Pieces {
    Pieces {
        left: b"abcdefgh",
        step,
        times,
        interrupted: 0,
        stop,
    }
}

// A stream whose first reads and writes fail. It gives the byte 7 without end, one at a time.
#[derive(Drop)]
struct Failing {
    kind: ErrorKind,
    times: u64,
}

impl Write for Failing {
    fn write(&mut self, piece: &[u8]) -> io::Result<usize> {
        if self.times > 0 {
            self.times -= 1;
            return Err(io::Error::from(self.kind));
        }
        Ok(piece.len())
    }

    fn flush(&mut self) -> io::Result<()> {
        Ok(())
    }
}

impl Read for Failing {
    fn read(&mut self, into: &mut [u8]) -> io::Result<usize> {
        if self.times > 0 {
            self.times -= 1;
            return Err(io::Error::from(self.kind));
        }
        match into {
            [] => Ok(0),
            [first, ..] => {
                *first = 7;
                Ok(1)
            }
        }
    }
}

// A reader that gives its bytes in pieces. Each read is interrupted so often first, and one with `stop` bytes left fails.
#[derive(Drop)]
struct Pieces {
    left: &'static [u8],
    step: usize,
    times: u64,
    interrupted: u64,
    stop: usize,
}

impl Read for Pieces {
    fn read(&mut self, into: &mut [u8]) -> io::Result<usize> {
        if self.interrupted < self.times {
            self.interrupted += 1;
            return Err(io::Error::from(ErrorKind::Interrupted));
        }
        self.interrupted = 0;
        if self.left.len() == self.stop {
            return Err(io::Error::from(ErrorKind::BrokenPipe));
        }
        let count = self.step.min(self.left.len()).min(into.len());
        into[..count].copy_from_slice(&self.left[..count]);
        self.left = &self.left[count..];
        Ok(count)
    }
}
