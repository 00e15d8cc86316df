//! Where connections come in.
ghost use Rattle.std.specs.Prelude.{◌≡◌, ◌≤◌, ◌+◌, ◌++◌, ◌∷◌, [], Bool, IsTrue, IsErrOf, IfOk, OnOk, OnErr};
ghost use Rattle.fx_outside.specs.Doors.{DoorSeen, output_of, IsTaken};

use crate::streams::{Sink, Source};
use std::alloc::{AllocError, AllocFailed, Global};

/// Why a door did nothing.
#[derive(Clone, Copy, Debug, PartialEq, Eq)]
pub enum DoorError {
    /// The call failed, and this was counted as a fault of the door.
    Failed,
    /// Memory ran out, or the count of faults stands at the end of `u64`.
    Memory,
}

impl From<AllocError> for DoorError {
    ghost use Rattle.std.specs.Prelude.{◌≡◌};
    ghost use Rattle.fx_outside.specs.declared.doors.DoorError.TheVariants.{Memory};

    ghost from_gives = { λ _ e. e ≡ Memory };

    fn from(_error: AllocError) -> DoorError {
        DoorError::Memory
    }
}

impl<T: Drop> From<AllocFailed<T>> for DoorError {
    ghost use Rattle.std.specs.Prelude.{◌≡◌};
    ghost use Rattle.fx_outside.specs.declared.doors.DoorError.TheVariants.{Memory};

    ghost from_gives = { λ _ e. e ≡ Memory };

    fn from(_error: AllocFailed<T>) -> DoorError {
        DoorError::Memory
    }
}

impl From<fx_terms::Memory> for DoorError {
    ghost use Rattle.std.specs.Prelude.{◌≡◌};
    ghost use Rattle.fx_outside.specs.declared.doors.DoorError.TheVariants.{Memory};

    ghost from_gives = { λ _ e. e ≡ Memory };

    fn from(_error: fx_terms::Memory) -> DoorError {
        DoorError::Memory
    }
}

/// A door, at which connections come in one after another.
///
/// A door that tells, tells the address of each time that it was opened, what will be read from the connections that are to come, and what
/// was written to those that are finished and what of them wasn't read; its connections then tell what is left of them and what they hold.
pub trait Door {
    /// A connection.
    type Conn: Source + Sink + Drop;

    /// Whether doors of this type tell.
    ghost tells: { Bool };

    /// What is known of the door: the address of each time that it was opened, in order, what will be read from each of the connections that
    /// are to come, in order, what was written to each of those that are finished and what of it wasn't read, in order, and how many calls have failed.
    ghost seen: { Self → DoorSeen };

    /// Opens the door at an address, as `host:port`.
    ///
    /// `Failed` comes where it can't be opened there. It counts exactly one more fault, and no other answer changes the count.
    /// `Memory` comes where memory runs out, or where that count stands at the end of `u64`. After either all that the door tells is
    /// as before.
    fn start(&mut self, alloc: Global, address: &str) -> Result<(), DoorError>
        ensures started { IsTrue (seen self.old).tells → OnOk result ((seen self.new).started ≡ (seen self.old).started ++ address.now ∷ []) }
        ensures unstarted { IsTrue (seen self.old).tells → OnErr result ((seen self.new).started ≡ (seen self.old).started) }
        ensures inputs { IsTrue (seen self.old).tells → (seen self.new).inputs ≡ (seen self.old).inputs }
        ensures outputs { IsTrue (seen self.old).tells → (seen self.new).outputs ≡ (seen self.old).outputs }
        ensures kept { (seen self.old).faults ≤ (seen self.new).faults }
        ensures counted { IsErrOf result DoorError.Failed → (seen self.new).faults ≡ (seen self.old).faults + 1 }
        ensures faultless { ¬ IsErrOf result DoorError.Failed → (seen self.new).faults ≡ (seen self.old).faults };

    /// The next connection, which has no fault yet and, where the door tells, the first of the inputs left, and holds nothing.
    ///
    /// `Failed` comes where none can be given. It counts exactly one more fault, and no other answer changes the count. `Memory`
    /// comes where memory runs out, or where that count stands at the end of `u64`. After either all that the door tells is as before.
    fn accept(&mut self, alloc: Global) -> Result<Self::Conn, DoorError>
        ensures faultless_connection { IfOk result (λ conn. (Self.Conn.read_faults conn ≡ 0) × (Self.Conn.write_faults conn ≡ 0)) }
        ensures taken { IsTrue (seen self.old).tells → IfOk result (λ conn. IsTrue Self.Conn.tells_left × (IsTrue Self.Conn.tells_held × IsTaken (seen self.old).inputs (seen self.new).inputs (Self.Conn.left conn) (Self.Conn.held conn))) }
        ensures untaken { IsTrue (seen self.old).tells → OnErr result ((seen self.new).inputs ≡ (seen self.old).inputs) }
        ensures started { IsTrue (seen self.old).tells → (seen self.new).started ≡ (seen self.old).started }
        ensures outputs { IsTrue (seen self.old).tells → (seen self.new).outputs ≡ (seen self.old).outputs }
        ensures kept { (seen self.old).faults ≤ (seen self.new).faults }
        ensures counted { IsErrOf result DoorError.Failed → (seen self.new).faults ≡ (seen self.old).faults + 1 }
        ensures faultless { ¬ IsErrOf result DoorError.Failed → (seen self.new).faults ≡ (seen self.old).faults };

    /// Ends a connection. A door that tells keeps what it holds and what is left of it behind the other outputs, with its counts of faults.
    ///
    /// `Failed` comes where it can't be ended. It counts exactly one more fault, and no other answer changes the count. `Memory`
    /// comes where memory runs out, or where that count stands at the end of `u64`. After either all that the door tells is as before.
    fn finish(&mut self, alloc: Global, conn: Self::Conn) -> Result<(), DoorError>
        ensures ended { IsTrue (seen self.old).tells → OnOk result ((seen self.new).outputs ≡ (seen self.old).outputs ++ output_of (Self.Conn.held conn) (Self.Conn.left conn) (Self.Conn.read_faults conn) (Self.Conn.write_faults conn) ∷ []) }
        ensures unended { IsTrue (seen self.old).tells → OnErr result ((seen self.new).outputs ≡ (seen self.old).outputs) }
        ensures started { IsTrue (seen self.old).tells → (seen self.new).started ≡ (seen self.old).started }
        ensures inputs { IsTrue (seen self.old).tells → (seen self.new).inputs ≡ (seen self.old).inputs }
        ensures kept { (seen self.old).faults ≤ (seen self.new).faults }
        ensures counted { IsErrOf result DoorError.Failed → (seen self.new).faults ≡ (seen self.old).faults + 1 }
        ensures faultless { ¬ IsErrOf result DoorError.Failed → (seen self.new).faults ≡ (seen self.old).faults };

    /// Each door tells where doors of its type do.
    ghost told: { (door : Self) → (seen door).tells ≡ tells };
}
