//! Calls of `fx_program::run` that serve a graph, or two members that answer by their graphs, at a door in memory.
//!
//! Calls that are to fail are those of the door, of its connections and of `err`, and exchanges with a member.

use crate::runs::ran_at;
use fx_command_cases::commands::words_of;
use fx_command_cases::doors::door_of;
use fx_command_cases::ends::both_texts;
use fx_command_cases::files::{contents, files_of};
use fx_command_cases::wires::fault_wire;
use fx_outside::MemoryDoor;
use fx_wire::ScriptWire;
use std::alloc::Global;
use std::str::from_utf8;
use std::sync::Wait;
use std::thread::Threads;

/// What a call gives.
pub fn answer<R: Threads + Wait + Sync>(
    rt: &R,
    alloc: Global,
    call: &str,
    inputs: &[&str],
) -> Option<String> {
    match (call, inputs) {
        ("run member", [words, file, failing, inputs @ ..]) => {
            served(rt, alloc, words, file, failing, inputs)
        }
        ("run serve", [words, failing, registry, first, second, inputs @ ..]) => {
            federation_served(
                rt,
                alloc,
                words,
                failing,
                &[registry, first, second],
                inputs,
            )
        }
        _ => None,
    }
}

// What a run gives where one read or write of a connection moves up to 4,096 bytes. Where no write is to fail, which is named by its
// number, it has to give the same byte by byte.
fn served<R: Threads + Wait + Sync>(
    rt: &R,
    alloc: Global,
    words: &str,
    file: &str,
    failing: &str,
    inputs: &[&str],
) -> Option<String> {
    let whole = served_by(rt, alloc, words, file, failing, inputs, 4096)?;
    if failing.contains("write.") {
        return Some(whole);
    }
    let cut = served_by(rt, alloc, words, file, failing, inputs, 1)?;
    both_texts(alloc, whole, cut.as_str())
}

fn served_by<R: Threads + Wait + Sync>(
    rt: &R,
    alloc: Global,
    words: &str,
    file: &str,
    failing: &str,
    inputs: &[&str],
    step: u64,
) -> Option<String> {
    let mut door = door_of(alloc, failing, inputs, step)?;
    let text = ran(rt, alloc, words, file, failing, &mut door)?;
    with_replies(text, &door)
}

// A text, with the reply of each connection that was ended.
fn with_replies(mut text: String, door: &MemoryDoor) -> Option<String> {
    for link in door.finished() {
        text.push_str(" | reply ").ok()?;
        text.push_str(from_utf8(link.written()).ok()?).ok()?;
    }
    Some(text)
}

// The same of a run that serves two members, which answer by their graphs.
fn federation_served<R: Threads + Wait + Sync>(
    rt: &R,
    alloc: Global,
    words: &str,
    failing: &str,
    fields: &[&str],
    inputs: &[&str],
) -> Option<String> {
    let whole = federation_served_by(rt, alloc, words, failing, fields, inputs, 4096)?;
    if failing.contains("write.") {
        return Some(whole);
    }
    let cut = federation_served_by(rt, alloc, words, failing, fields, inputs, 1)?;
    both_texts(alloc, whole, cut.as_str())
}

fn federation_served_by<R: Threads + Wait + Sync>(
    rt: &R,
    alloc: Global,
    words: &str,
    failing: &str,
    fields: &[&str],
    inputs: &[&str],
    step: u64,
) -> Option<String> {
    let mut door = door_of(alloc, failing, inputs, step)?;
    let text = federation_ran(rt, alloc, words, failing, fields, &mut door)?;
    with_replies(text, &door)
}

fn federation_ran<R: Threads + Wait + Sync>(
    rt: &R,
    alloc: Global,
    words: &str,
    failing: &str,
    fields: &[&str],
    door: &mut MemoryDoor,
) -> Option<String> {
    let words = words_of(alloc, words)?;
    let mut files = files_of(alloc, failing, contents(alloc, fields)?)?;
    let mut wires = [fault_wire(alloc, failing, fields)?];
    ran_at(
        rt,
        alloc,
        words.as_slice(),
        failing,
        4096,
        &mut files,
        &mut wires,
        door,
    )
}

fn ran<R: Threads + Wait + Sync>(
    rt: &R,
    alloc: Global,
    words: &str,
    file: &str,
    failing: &str,
    door: &mut MemoryDoor,
) -> Option<String> {
    let words = words_of(alloc, words)?;
    ran_by(rt, alloc, words.as_slice(), file, failing, door)
}

fn ran_by<R: Threads + Wait + Sync>(
    rt: &R,
    alloc: Global,
    words: &[String],
    file: &str,
    failing: &str,
    door: &mut MemoryDoor,
) -> Option<String> {
    let mut files = files_of(alloc, "", contents(alloc, &[file])?)?;
    let mut wires = [ScriptWire::new(alloc, Vec::new(alloc)).ok()?];
    ran_at(
        rt, alloc, words, failing, 4096, &mut files, &mut wires, door,
    )
}
