//! Streams in memory.
//!
//! Calls that are to fail have a blank between: each is `out` or `err`, a `=`, and the number of the write.

use fx_outside::MemorySink;
use std::alloc::Global;

// How many bytes a stream takes.
const ROOM: u64 = 65536;

/// A stream in memory, by the calls that are to fail and its name among them.
pub fn sink_of(alloc: Global, failing: &str, name: &str, step: u64) -> Option<MemorySink> {
    if step == 0 {
        return None;
    }
    MemorySink::new(alloc, ROOM, step, numbers_of(alloc, failing, name)?).ok()
}

/// The numbers of the calls of this name that are to fail.
pub fn numbers_of(alloc: Global, failing: &str, name: &str) -> Option<Vec<u64>> {
    let mut numbers = Vec::new(alloc);
    for call in failing.split_whitespace() {
        let (of, number) = call.split_once('=')?;
        if of == name {
            numbers.push(number.parse::<u64>().ok()?).ok()?;
        }
    }
    Some(numbers)
}
