//! A sink in memory.
ghost use Rattle.std.specs.Prelude.{◌≡◌, ◌<◌, ◌≤◌, IfOk, vec_len, vec_capacity};

use crate::streams::{Ends, Sink, WriteFailed};
use fx_terms::Memory;
use std::alloc::Global;

/// A sink in memory, which tells what it holds.
///
/// A write moves at most `step` bytes, and no more than the room still has. Writes are numbered from 1. A write whose
/// number is among those that are to fail is a fault, and so is one of a non-empty piece where no room is left.
#[derive(Drop)]
pub struct MemorySink {
    bytes: Vec<u8>,
    room: u64,
    step: u64,
    calls: u64,
    fails: Vec<u64>,
    faults: u64,
    ghost space: { (vec_len bytes ≤ room) × (room ≤ vec_capacity bytes) },
    ghost steps: { 0 < step },
}

impl MemorySink {
    ghost use Rattle.fx_outside.specs.MemoryStreams.{held_in, movable_of, IsFresh};

    /// An empty sink with room for `room` bytes, of which one write moves at most `step`. The writes whose numbers
    /// stand in `fails` fail.
    ///
    /// It takes the memory for the whole room now, so that no write takes any. `Memory` comes where there is none.
    pub fn new(alloc: Global, room: u64, step: u64, fails: Vec<u64>) -> Result<MemorySink, Memory>
        requires { 0 < step }
        ensures { IfOk result (λ sink. IsFresh sink room step fails.items) }
    {
        Ok(MemorySink {
            bytes: Vec::with_capacity(alloc, room as usize)?,
            room,
            step,
            calls: 0,
            fails,
            faults: 0,
        })
    }

    /// The bytes that it holds, in the order in which they were written.
    pub fn bytes(&self) -> &[u8]
        ensures { result.now ≡ held_in self.now }
    {
        self.bytes.as_slice()
    }

    // How many bytes of a piece of this size a write moves now.
    fn movable(&self, size: usize) -> usize
        ensures { result ≡ movable_of self.now size }
    {
        let free = self.room - self.bytes.len() as u64;
        let most = self.step.min(free);
        if (size as u64) < most {
            size
        } else {
            most as usize
        }
    }
}

impl Ends for MemorySink {
    ghost use Rattle.std.specs.Prelude.{true, false, []};
    ghost use Rattle.fx_outside.specs.MemoryStreams.{held_in, faults_of};

    ghost tells_left = { false };

    ghost left = { λ _. [] };

    ghost tells_held = { true };

    ghost held = { λ sink. held_in sink };

    ghost read_faults = { λ _. 0 };

    ghost write_faults = { λ sink. faults_of sink };
}

impl Sink for MemorySink {
    ghost use Rattle.std.specs.Prelude.{◌++◌, length, take, IsErr, OnErr};
    ghost use Rattle.std.specs.Result.{result_ok};
    ghost use Rattle.fx_outside.specs.Faults.{HasRisen, IsOneMore};
    ghost use Rattle.fx_outside.specs.MemoryStreams.{held_in, faults_of, next_move, IsAfterWrite};

    /// Writes bytes from the front of a piece, and gives their number: as many as the piece has, one write moves and
    /// the room still takes.
    ///
    /// `WriteFailed` comes where this write is to fail, and where the piece isn't empty and no room is left.
    fn write(&mut self, piece: &[u8]) -> Result<usize, WriteFailed>
        ensures within { IfOk result (λ n. n ≤ length piece.now) }
        ensures some { 0 < length piece.now → IfOk result (λ n. 0 < n) }
        ensures moved { result_ok result ≡ next_move self.old (length piece.now) }
        ensures written { IfOk result (λ n. held_in self.new ≡ held_in self.old ++ take n piece.now) }
        ensures unwritten { OnErr result (held_in self.new ≡ held_in self.old) }
        ensures kept { faults_of self.old ≤ faults_of self.new }
        ensures failed { IsErr result → HasRisen (faults_of self.old) (faults_of self.new) }
        ensures counted { IsErr result → IsOneMore (faults_of self.old) (faults_of self.new) }
        ensures faultless { IfOk result (λ _. faults_of self.new ≡ faults_of self.old) }
        ensures after { IsAfterWrite self.old self.new }
    {
        self.calls = self.calls.saturating_add(1);
        let count = self.movable(piece.len());
        if self.fails.contains(&self.calls) || (count == 0 && !piece.is_empty()) {
            self.faults = self.faults.saturating_add(1);
            return Err(WriteFailed);
        }
        let Ok(()) = self.bytes.extend_from_slice(&piece[..count]) else {
            unreachable!()
        };
        Ok(count)
    }
}
