//! A link in memory: what is read from and written to.
ghost use Rattle.std.specs.Prelude.{◌≡◌, ◌<◌, ◌≤◌, IfOk, vec_len};

use crate::memory_streams::MemorySink;
use crate::streams::{Ends, ReadFailed, Sink, Source, WriteFailed};
use fx_terms::Memory;
use std::alloc::Global;

/// A link in memory, which tells what is left of its input and what was written to it.
///
/// A read or write moves at most `step` bytes, and a write no more than the room still has. Reads and writes are numbered
/// from 1, each for themselves. A read or write whose number is among those that are to fail is a fault, and so is a write of a
/// non-empty piece where no room is left.
#[derive(Drop)]
pub struct MemoryLink {
    input: Vec<u8>,
    at: usize,
    step: u64,
    reads: u64,
    fails: Vec<u64>,
    faults: u64,
    output: MemorySink,
    ghost place: { at ≤ vec_len input },
    ghost steps: { 0 < step },
}

impl MemoryLink {
    ghost use Rattle.std.specs.Prelude.{length};
    ghost use Rattle.fx_outside.specs.MemoryLinks.{written_in, IsFreshLink};

    /// A link with this input and an empty output with room for `room` bytes. One read or write moves at most `step` bytes.
    /// The reads whose numbers stand in `read_fails` fail, and the writes whose numbers stand in `write_fails`.
    ///
    /// It takes the memory for the whole room now, so that no write takes any. `Memory` comes where there is none.
    pub fn new(
        alloc: Global,
        input: Vec<u8>,
        room: u64,
        step: u64,
        read_fails: Vec<u64>,
        write_fails: Vec<u64>,
    ) -> Result<MemoryLink, Memory>
        requires { 0 < step }
        ensures { IfOk result (λ link. IsFreshLink link input.items room step read_fails.items write_fails.items) }
    {
        Ok(MemoryLink {
            input,
            at: 0,
            step,
            reads: 0,
            fails: read_fails,
            faults: 0,
            output: MemorySink::new(alloc, room, step, write_fails)?,
        })
    }

    /// The bytes that were written to it, in order.
    pub fn written(&self) -> &[u8]
        ensures { result.now ≡ written_in self.now }
    {
        self.output.bytes()
    }
}

impl Ends for MemoryLink {
    ghost use Rattle.std.specs.Prelude.{true};
    ghost use Rattle.fx_outside.specs.MemoryLinks.{left_in, written_in, read_faults_of, write_faults_of};

    ghost tells_left = { true };

    ghost left = { λ link. left_in link };

    ghost tells_held = { true };

    ghost held = { λ link. written_in link };

    ghost read_faults = { λ link. read_faults_of link };

    ghost write_faults = { λ link. write_faults_of link };
}

impl Source for MemoryLink {
    ghost use Rattle.std.specs.Prelude.{length, take, drop, [], IsErr, OnErr};
    ghost use Rattle.std.specs.Result.{result_ok};
    ghost use Rattle.fx_outside.specs.Faults.{HasRisen, IsOneMore};
    ghost use Rattle.fx_outside.specs.MemoryLinks.{left_in, written_in, read_faults_of, write_faults_of, next_count, IsAfterRead};

    /// Reads bytes into the front of `into`, and gives their number: as many as `into` takes, one read moves and the input
    /// still has.
    ///
    /// `ReadFailed` comes where this read is to fail.
    fn read(&mut self, into: &mut [u8]) -> Result<usize, ReadFailed>
        ensures within { IfOk result (λ n. n ≤ length into.old) }
        ensures moved { result_ok result ≡ next_count self.old (length into.old) }
        ensures taken { IfOk result (λ n. (n ≤ length (left_in self.old)) × (take n into.new ≡ take n (left_in self.old)) × (left_in self.new ≡ drop n (left_in self.old))) }
        ensures ends { 0 < length into.old → IfOk result (λ n. n ≡ 0 → left_in self.old ≡ []) }
        ensures unread { OnErr result (left_in self.new ≡ left_in self.old) }
        ensures kept { read_faults_of self.old ≤ read_faults_of self.new }
        ensures failed { IsErr result → HasRisen (read_faults_of self.old) (read_faults_of self.new) }
        ensures counted { IsErr result → IsOneMore (read_faults_of self.old) (read_faults_of self.new) }
        ensures faultless { IfOk result (λ _. read_faults_of self.new ≡ read_faults_of self.old) }
        ensures held { written_in self.new ≡ written_in self.old }
        ensures writes { write_faults_of self.new ≡ write_faults_of self.old }
        ensures after { IsAfterRead self.old self.new }
    {
        self.reads = self.reads.saturating_add(1);
        if self.fails.contains(&self.reads) {
            self.faults = self.faults.saturating_add(1);
            return Err(ReadFailed);
        }
        let left = &self.input.as_slice()[self.at..];
        let count = into.len().min(left.len());
        let count = if (count as u64) < self.step {
            count
        } else {
            self.step as usize
        };
        into[..count].copy_from_slice(&left[..count]);
        self.at += count;
        Ok(count)
    }
}

impl Sink for MemoryLink {
    ghost use Rattle.std.specs.Prelude.{◌++◌, length, take, IsErr, OnErr};
    ghost use Rattle.std.specs.Result.{result_ok};
    ghost use Rattle.fx_outside.specs.Faults.{HasRisen, IsOneMore};
    ghost use Rattle.fx_outside.specs.MemoryStreams.{next_move};
    ghost use Rattle.fx_outside.specs.MemoryLinks.{left_in, written_in, read_faults_of, write_faults_of, IsAfterLinkWrite};

    /// Writes bytes from the front of a piece, and gives their number: as many as the piece has, one write moves and the room
    /// still takes.
    ///
    /// `WriteFailed` comes where this write is to fail, and where the piece isn't empty and no room is left.
    fn write(&mut self, piece: &[u8]) -> Result<usize, WriteFailed>
        ensures within { IfOk result (λ n. n ≤ length piece.now) }
        ensures some { 0 < length piece.now → IfOk result (λ n. 0 < n) }
        ensures moved { result_ok result ≡ next_move self.old.output (length piece.now) }
        ensures written { IfOk result (λ n. written_in self.new ≡ written_in self.old ++ take n piece.now) }
        ensures unwritten { OnErr result (written_in self.new ≡ written_in self.old) }
        ensures kept { write_faults_of self.old ≤ write_faults_of self.new }
        ensures failed { IsErr result → HasRisen (write_faults_of self.old) (write_faults_of self.new) }
        ensures counted { IsErr result → IsOneMore (write_faults_of self.old) (write_faults_of self.new) }
        ensures faultless { IfOk result (λ _. write_faults_of self.new ≡ write_faults_of self.old) }
        ensures left { left_in self.new ≡ left_in self.old }
        ensures reads { read_faults_of self.new ≡ read_faults_of self.old }
        ensures after { IsAfterLinkWrite self.old self.new }
    {
        self.output.write(piece)
    }
}
