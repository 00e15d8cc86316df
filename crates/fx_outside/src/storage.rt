//! Files by name.
ghost use Rattle.std.specs.Prelude.{◌≡◌, ◌≤◌, ◌+◌, ℕ, List, take, IfOk, IfSome, IsErrOf, vec_len};
ghost use Rattle.fx_outside.specs.Faults.{HaveStayed, IsOneMoreAt};
ghost use Rattle.fx_outside.specs.Storage.{FilesSeen};

use std::alloc::{AllocError, AllocFailed, Global};

/// Why a file wasn't given.
#[derive(Clone, Copy, Debug, PartialEq, Eq)]
pub enum FileError {
    /// The file can't be opened or read, and this was counted as a fault of its name.
    Failed,
    /// Memory ran out, or the count of faults of the name stands at the end of `u64`.
    Memory,
}

impl From<AllocError> for FileError {
    ghost use Rattle.std.specs.Prelude.{◌≡◌};
    ghost use Rattle.fx_outside.specs.declared.storage.FileError.TheVariants.{Memory};

    ghost from_gives = { λ _ e. e ≡ Memory };

    fn from(_error: AllocError) -> FileError {
        FileError::Memory
    }
}

impl<T: Drop> From<AllocFailed<T>> for FileError {
    ghost use Rattle.std.specs.Prelude.{◌≡◌};
    ghost use Rattle.fx_outside.specs.declared.storage.FileError.TheVariants.{Memory};

    ghost from_gives = { λ _ e. e ≡ Memory };

    fn from(_error: AllocFailed<T>) -> FileError {
        FileError::Memory
    }
}

/// Where files are taken from by name.
pub trait Files {
    /// What is known of the files: the content of each name, where it is told, and how often each name's file has failed.
    ghost seen: { Self → FilesSeen };

    /// The first bytes of the file of this name: all of them where it has at most `limit` bytes, and else `limit + 1`,
    /// which shows that it has more.
    ///
    /// `Failed` comes where the file can't be opened or read. It counts exactly one more fault of its name, and no other call
    /// changes a count. `Memory` comes where memory runs out, or where that count stands at the end of `u64`, so that it can't
    /// rise.
    fn take(&mut self, alloc: Global, name: &str, limit: u64) -> Result<Vec<u8>, FileError>
        requires { limit ≤ 134217728 }
        ensures size { IfOk result (λ bytes. vec_len bytes ≤ limit + 1) }
        ensures told { IfOk result (λ bytes. IfSome ((seen self.old).content name.now) (λ all. bytes.items ≡ take (limit + 1) all)) }
        ensures counted { IsErrOf result FileError.Failed → IsOneMoreAt name.now (seen self.old).faults (seen self.new).faults }
        ensures faultless { ¬ IsErrOf result FileError.Failed → HaveStayed (seen self.old).faults (seen self.new).faults }
        ensures kept { (other : List ℕ) → (seen self.old).faults other ≤ (seen self.new).faults other }
        ensures same { (other : List ℕ) → (seen self.new).content other ≡ (seen self.old).content other };
}
