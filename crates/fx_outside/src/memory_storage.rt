//! Files in memory.
ghost use Rattle.std.specs.Prelude.{◌≡◌, ◌≤◌, ◌+◌, List, ℕ, take, IfOk, IfSome, IsOkAnd, IsErrOf, option_copied, vec_len};
ghost use Rattle.std.specs.Option.{option_map};
ghost use Rattle.fx_outside.specs.Faults.{HaveStayed, IsOneMoreAt};
ghost use Rattle.fx_outside.specs.MemoryStorage.{content_in, content_of, fails_at, faults_in, given_at, next_given, IsAfterCall, IsFreshFiles};

use crate::name_counts::NameCounts;
use crate::storage::{FileError, Files};
use fx_terms::Memory;
use std::alloc::Global;

/// Files in memory, which tell the content of each name that they hold.
///
/// A name that isn't held is a fault. So is each call that is to fail: the calls of a name are numbered from 1.
#[derive(Drop)]
pub struct MemoryFiles {
    files: Vec<(String, Vec<u8>)>,
    fails: Vec<(String, u64)>,
    calls: NameCounts,
    faults: NameCounts,
}

impl MemoryFiles {
    /// Files by name and content. Each pair of `fails` names a file and the number of a call of it that fails.
    ///
    /// No name is to stand twice in `files`: the first of equal names counts. It takes no memory, so `Memory` doesn't
    /// come: the answer is always `Ok`.
    pub fn new(
        alloc: Global,
        files: Vec<(String, Vec<u8>)>,
        fails: Vec<(String, u64)>,
    ) -> Result<MemoryFiles, Memory>
        ensures { IsOkAnd result (λ made. IsFreshFiles made files.items fails.items) }
    {
        Ok(MemoryFiles {
            files,
            fails,
            calls: NameCounts::new(alloc),
            faults: NameCounts::new(alloc),
        })
    }
}

impl Files for MemoryFiles {
    ghost use Rattle.fx_outside.specs.MemoryStorage.{content_in, faults_in};

    ghost seen = { λ files. record { content = content_in files; faults = faults_in files } };

    /// The first bytes of the file of this name: all of them where it has at most `limit` bytes, and else `limit + 1`.
    ///
    /// `Failed` comes where the name isn't held, and where this call of it is to fail. `Memory` comes where memory runs
    /// out, or where a count of the name stands at the end of `u64`.
    fn take(&mut self, alloc: Global, name: &str, limit: u64) -> Result<Vec<u8>, FileError>
        requires { limit ≤ 134217728 }
        ensures size { IfOk result (λ bytes. vec_len bytes ≤ limit + 1) }
        ensures told { IfOk result (λ bytes. IfSome (content_in self.old name.now) (λ all. bytes.items ≡ take (limit + 1) all)) }
        ensures given { IfOk result (λ bytes. option_map (take (limit + 1)) (next_given self.old name.now) ≡ Some bytes.items) }
        ensures refused { IsErrOf result FileError.Failed → next_given self.old name.now ≡ None }
        ensures counted { IsErrOf result FileError.Failed → IsOneMoreAt name.now (faults_in self.old) (faults_in self.new) }
        ensures faultless { ¬ IsErrOf result FileError.Failed → HaveStayed (faults_in self.old) (faults_in self.new) }
        ensures kept { (other : List ℕ) → faults_in self.old other ≤ faults_in self.new other }
        ensures same { (other : List ℕ) → content_in self.new other ≡ content_in self.old other }
        ensures after { ¬ IsErrOf result FileError.Memory → IsAfterCall self.old self.new name.now }
    {
        let fault = self.faults.place(name)?;
        let call = self.calls.place(name)?;
        let number = self.calls.raise(call);
        let Some(bytes) = given(self.files.as_slice(), self.fails.as_slice(), name, number) else {
            self.faults.raise(fault);
            return Err(FileError::Failed);
        };
        Ok(Vec::from_slice(alloc, front(bytes, limit as usize + 1))?)
    }
}

// What this call of this name gives: the content of the name, unless the call is to fail.
fn given<'a>(
    files: &'a [(String, Vec<u8>)],
    fails: &[(String, u64)],
    name: &str,
    number: u64,
) -> Option<&'a [u8]>
    ensures { option_copied result ≡ given_at files.now fails.now name.now number }
{
    if is_failing(fails, name, number) {
        return None;
    }
    find(files, name)
}

// The content of the first file with this name.
fn find<'a>(files: &'a [(String, Vec<u8>)], name: &str) -> Option<&'a [u8]>
    ensures { option_copied result ≡ content_of files.now name.now }
{
    for file in files {
        if file.0.as_str() == name {
            return Some(file.1.as_slice());
        }
    }
    None
}

// The first bytes, or all of them.
fn front(bytes: &[u8], most: usize) -> &[u8]
    ensures { result.now ≡ take most bytes.now }
{
    &bytes[..bytes.len().min(most)]
}

// Whether this call of this name is to fail.
fn is_failing(fails: &[(String, u64)], name: &str, number: u64) -> bool
    ensures { result ≡ fails_at fails.now name.now number }
{
    fails
        .iter()
        .any(|pair| pair.0.as_str() == name && pair.1 == number)
}
