//! What is read from and written to, and what is known of it.
ghost use Rattle.std.specs.Prelude.{◌≡◌, ◌<◌, ◌≤◌, ◌++◌, ℕ, List, [], Bool, length, take, drop, IsTrue, IsErr, IfOk, OnErr};
ghost use Rattle.fx_outside.specs.Faults.{HasRisen, IsOneMore};

/// A read failed, and was counted as a read fault.
#[derive(Clone, Copy, Debug, PartialEq, Eq)]
pub struct ReadFailed;

/// A write failed, and was counted as a write fault.
#[derive(Clone, Copy, Debug, PartialEq, Eq)]
pub struct WriteFailed;

/// What is known of something that is read or written: the bytes left to read, the bytes that were written to it, and
/// how many reads and writes have failed.
///
/// A content that a type doesn't have, or can't know, isn't told. A count that it doesn't have is 0.
pub trait Ends {
    /// Whether values of this type tell what is left.
    ghost tells_left: { Bool };

    /// The bytes that are left to read.
    ghost left: { Self → List ℕ };

    /// Whether values of this type tell what they hold.
    ghost tells_held: { Bool };

    /// The bytes that were written, in order.
    ghost held: { Self → List ℕ };

    /// How many reads have failed.
    ghost read_faults: { Self → ℕ };

    /// How many writes have failed.
    ghost write_faults: { Self → ℕ };
}

/// What bytes are read from.
pub trait Source: Ends {
    /// Reads bytes into the front of `into`, and gives their number. Where `into` isn't empty, 0 comes only at the end
    /// of the input.
    ///
    /// `ReadFailed` comes where the read failed. The count of read faults rose by one in this call then, or stands at the
    /// end of `u64`, and a source that tells what is left, has the same left. No other call changes the count.
    fn read(&mut self, into: &mut [u8]) -> Result<usize, ReadFailed>
        ensures within { IfOk result (λ n. n ≤ length into.old) }
        ensures taken { IsTrue Self.tells_left → IfOk result (λ n. (n ≤ length (Self.left self.old)) × (take n into.new ≡ take n (Self.left self.old)) × (Self.left self.new ≡ drop n (Self.left self.old))) }
        ensures ends { IsTrue Self.tells_left → 0 < length into.old → IfOk result (λ n. n ≡ 0 → Self.left self.old ≡ []) }
        ensures unread { IsTrue Self.tells_left → OnErr result (Self.left self.new ≡ Self.left self.old) }
        ensures kept { Self.read_faults self.old ≤ Self.read_faults self.new }
        ensures failed { IsErr result → HasRisen (Self.read_faults self.old) (Self.read_faults self.new) }
        ensures counted { IsErr result → IsOneMore (Self.read_faults self.old) (Self.read_faults self.new) }
        ensures faultless { IfOk result (λ _. Self.read_faults self.new ≡ Self.read_faults self.old) }
        ensures held { IsTrue Self.tells_held → Self.held self.new ≡ Self.held self.old }
        ensures writes { Self.write_faults self.new ≡ Self.write_faults self.old };
}

/// What bytes are written to.
pub trait Sink: Ends {
    /// Writes bytes from the front of a piece, and gives their number: at least one where the piece isn't empty.
    ///
    /// `WriteFailed` comes where the write failed. The count of write faults rose by one in this call then, or stands at
    /// the end of `u64`, and a sink that tells what it holds, holds the same. No other call changes the count.
    fn write(&mut self, piece: &[u8]) -> Result<usize, WriteFailed>
        ensures within { IfOk result (λ n. n ≤ length piece.now) }
        ensures some { 0 < length piece.now → IfOk result (λ n. 0 < n) }
        ensures written { IsTrue Self.tells_held → IfOk result (λ n. Self.held self.new ≡ Self.held self.old ++ take n piece.now) }
        ensures unwritten { IsTrue Self.tells_held → OnErr result (Self.held self.new ≡ Self.held self.old) }
        ensures kept { Self.write_faults self.old ≤ Self.write_faults self.new }
        ensures failed { IsErr result → HasRisen (Self.write_faults self.old) (Self.write_faults self.new) }
        ensures counted { IsErr result → IsOneMore (Self.write_faults self.old) (Self.write_faults self.new) }
        ensures faultless { IfOk result (λ _. Self.write_faults self.new ≡ Self.write_faults self.old) }
        ensures left { IsTrue Self.tells_left → Self.left self.new ≡ Self.left self.old }
        ensures reads { Self.read_faults self.new ≡ Self.read_faults self.old };
}
