//! Doors in memory.
//!
//! Calls that are to fail have a blank between: `call=3` is the third call of the door, `read.1=2` the second read of the first
//! connection, and `write.1=2` such a write.

use crate::streams::numbers_of;
use fx_notation::escapes;
use fx_outside::MemoryDoor;
use std::alloc::Global;

/// A door at which nobody comes in.
pub fn closed_door(alloc: Global) -> Option<MemoryDoor> {
    MemoryDoor::new(
        alloc,
        Vec::new(alloc),
        0,
        1,
        Vec::new(alloc),
        Vec::new(alloc),
        Vec::new(alloc),
    )
    .ok()
}

/// A door at which these inputs come in, of which one read or write moves up to so many bytes, by the calls that are to fail.
pub fn door_of(alloc: Global, failing: &str, inputs: &[&str], step: u64) -> Option<MemoryDoor> {
    if step == 0 {
        return None;
    }
    MemoryDoor::new(
        alloc,
        bytes_of(alloc, inputs)?,
        4096,
        step,
        numbers_of(alloc, failing, "call")?,
        pairs_of(alloc, failing, "read.")?,
        pairs_of(alloc, failing, "write.")?,
    )
    .ok()
}

fn bytes_of(alloc: Global, inputs: &[&str]) -> Option<Vec<Vec<u8>>> {
    let mut all = Vec::new(alloc);
    for input in inputs {
        all.push(escapes::bytes(alloc, input)?).ok()?;
    }
    Some(all)
}

// The connections and the numbers of their calls that are to fail.
fn pairs_of(alloc: Global, failing: &str, kind: &str) -> Option<Vec<(u64, u64)>> {
    let mut pairs = Vec::new(alloc);
    for call in failing.split_whitespace() {
        if let Some(rest) = call.strip_prefix(kind) {
            let (connection, number) = rest.split_once('=')?;
            pairs
                .push((connection.parse::<u64>().ok()?, number.parse::<u64>().ok()?))
                .ok()?;
        }
    }
    Some(pairs)
}
