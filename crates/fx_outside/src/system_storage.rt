//! The files of the system.
ghost use Rattle.std.specs.Prelude.{◌≤◌, ◌+◌, ◌≡◌, List, ℕ, IfOk, IsErrOf, vec_len};
ghost use Rattle.fx_outside.specs.Faults.{HaveStayed, IsOneMoreAt};
ghost use Rattle.fx_outside.specs.SystemStorage.{faults_of_folder};

use crate::name_counts::NameCounts;
use crate::reading::read_front;
use crate::storage::{FileError, Files};
use std::alloc::Global;
use std::io::ErrorKind;
use std::{fs, io, rt};

/// The files that a runtime reaches, with a count of the faults of each name. It tells nothing of their content.
///
/// A name is a path, as the system reads it.
#[derive(Drop)]
pub struct Folder<R> {
    runtime: R,
    faults: NameCounts,
}

impl<R> Folder<R> {
    /// The files that this runtime reaches, with no fault yet.
    pub fn new(alloc: Global, runtime: R) -> Folder<R>
        ensures { (name : List ℕ) → faults_of_folder result name ≡ 0 }
    {
        Folder {
            runtime,
            faults: NameCounts::new(alloc),
        }
    }
}

impl<R: rt::Files> Files for Folder<R> {
    ghost use Rattle.std.specs.Prelude.{None};
    ghost use Rattle.fx_outside.specs.SystemStorage.{faults_of_folder};

    ghost seen = { λ folder. record { content = λ _. None; faults = faults_of_folder folder } };

    /// The first bytes of the file, as the system reads them.
    ///
    /// `Failed` comes where the system fails, and is counted; no other answer is.
    fn take(&mut self, alloc: Global, name: &str, limit: u64) -> Result<Vec<u8>, FileError>
        requires { limit ≤ 134217728 }
        ensures size { IfOk result (λ bytes. vec_len bytes ≤ limit + 1) }
        ensures counted { IsErrOf result FileError.Failed → IsOneMoreAt name.now (faults_of_folder self.old) (faults_of_folder self.new) }
        ensures faultless { ¬ IsErrOf result FileError.Failed → HaveStayed (faults_of_folder self.old) (faults_of_folder self.new) }
        ensures kept { (other : List ℕ) → faults_of_folder self.old other ≤ faults_of_folder self.new other }
    {
        let place = self.faults.place(name)?;
        match read_file(&self.runtime, alloc, name, limit as usize + 1) {
            Ok(bytes) => Ok(bytes),
            Err(FileError::Memory) => Err(FileError::Memory),
            Err(FileError::Failed) => {
                self.faults.raise(place);
                Err(FileError::Failed)
            }
        }
    }
}

// The first `most` bytes of a file, or all of it.
fn read_file<R: rt::Files>(
    runtime: &R,
    alloc: Global,
    name: &str,
    most: usize,
) -> Result<Vec<u8>, FileError>
    ensures { IfOk result (λ bytes. vec_len bytes ≤ most) }
{
    let bytes = fs::open(runtime, name).and_then(|mut file| read_front(&mut file, alloc, most));
    bytes.map_err(|error| file_error(&error))
}

// Want of memory is told apart from a fault of the file.
fn file_error(error: &io::Error) -> FileError {
    if error.kind() == ErrorKind::OutOfMemory {
        FileError::Memory
    } else {
        FileError::Failed
    }
}
