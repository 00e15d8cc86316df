//! The calls of `fx_outside` that reach no system.

use crate::wires::endpoint_of;
use fx_notation::{fields, shown};
use fx_outside::{
    Door, DoorError, Endpoint, FileError, Files, MemoryDoor, MemoryFiles, MemoryLink, MemorySink,
    ReadFailed, Sink, Source, WriteFailed, write_all,
};
use fx_terms::Memory;
use std::alloc::Global;

/// What a call gives.
pub fn answer(alloc: Global, call: &str, inputs: &[&str]) -> Option<String> {
    match (call, inputs) {
        ("MemorySink::new", [room]) => make_sink(alloc, room),
        ("MemorySink::write", [ends @ .., pieces]) => write_pieces(alloc, ends, pieces),
        ("write_all", [ends @ .., text]) => write_whole(alloc, ends, text),
        ("MemoryLink::read and write", [ends @ .., sizes, pieces]) => {
            read_and_write(alloc, ends, sizes, pieces)
        }
        ("MemoryFiles::take", [held, fails, takes]) => take_all(alloc, held, fails, takes),
        ("MemoryDoor", [parts @ .., steps]) => visit(alloc, parts, steps),
        _ => of_endpoint(alloc, call, inputs),
    }
}

fn of_endpoint(alloc: Global, call: &str, inputs: &[&str]) -> Option<String> {
    match (call, inputs) {
        ("Endpoint::is_sendable", [host, target]) => is_sendable(alloc, host, target),
        ("Endpoint::is_sendable of repeated", [host, piece, times]) => {
            is_long_sendable(alloc, host, piece, times)
        }
        ("Endpoint::copy", [parts @ ..]) => copy_endpoint(alloc, parts),
        _ => None,
    }
}

fn make_sink(alloc: Global, room: &str) -> Option<String> {
    match MemorySink::new(alloc, room.parse::<u64>().ok()?, 1, Vec::new(alloc)) {
        Ok(_) => shown::word(alloc, "Ok"),
        Err(Memory) => shown::word(alloc, "Memory"),
    }
}

// A sink by its room, the most that a write moves, and the numbers of the writes that fail.
fn sink(alloc: Global, ends: &[&str]) -> Option<MemorySink> {
    let [room, step, fails] = ends else {
        return None;
    };
    let room = room.parse::<u64>().ok()?;
    let step = step.parse::<u64>().ok()?;
    if step == 0 {
        return None;
    }
    MemorySink::new(alloc, room, step, fields::numbers(alloc, fails)?).ok()
}

// What each write moved, with what the sink held then.
fn write_pieces(alloc: Global, ends: &[&str], pieces: &str) -> Option<String> {
    let mut sink = sink(alloc, ends)?;
    let mut told = String::new(alloc);
    for piece in pieces.split_whitespace() {
        let moved = sink.write(fields::unquoted(piece).as_bytes());
        let entry = moved_text(alloc, moved, sink.bytes())?;
        fields::add(&mut told, entry.as_str())?;
    }
    Some(told)
}

fn moved_text(alloc: Global, moved: Result<usize, WriteFailed>, held: &[u8]) -> Option<String> {
    let held = shown::bytes(alloc, held)?;
    match moved {
        Ok(count) => format!(in alloc; "{count} '{held}'").ok(),
        Err(WriteFailed) => format!(in alloc; "Failed '{held}'").ok(),
    }
}

fn write_whole(alloc: Global, ends: &[&str], text: &str) -> Option<String> {
    let mut sink = sink(alloc, ends)?;
    let name = match write_all(&mut sink, text.as_bytes()) {
        Ok(()) => "Ok",
        Err(WriteFailed) => "Failed",
    };
    let held = shown::bytes(alloc, sink.bytes())?;
    format!(in alloc; "{name} '{held}'").ok()
}

// A link by its input, its room, the most that a read or write moves, and the numbers of the reads and the writes that fail.
fn link(alloc: Global, ends: &[&str]) -> Option<MemoryLink> {
    let [input, room, step, read_fails, write_fails] = ends else {
        return None;
    };
    let room = room.parse::<u64>().ok()?;
    let step = step.parse::<u64>().ok()?;
    if step == 0 {
        return None;
    }
    let input = Vec::from_slice(alloc, input.as_bytes()).ok()?;
    let read_fails = fields::numbers(alloc, read_fails)?;
    let write_fails = fields::numbers(alloc, write_fails)?;
    MemoryLink::new(alloc, input, room, step, read_fails, write_fails).ok()
}

// What each read gave, and then what each write moved, with what was written then.
fn read_and_write(alloc: Global, ends: &[&str], sizes: &str, pieces: &str) -> Option<String> {
    let mut link = link(alloc, ends)?;
    let mut told = String::new(alloc);
    for size in sizes.split_whitespace() {
        let entry = read(alloc, &mut link, size.parse::<usize>().ok()?)?;
        fields::add(&mut told, entry.as_str())?;
    }
    for piece in pieces.split_whitespace() {
        let entry = write(alloc, &mut link, fields::unquoted(piece))?;
        fields::add(&mut told, entry.as_str())?;
    }
    Some(told)
}

// What a read of at most so many bytes gives.
fn read(alloc: Global, link: &mut MemoryLink, size: usize) -> Option<String> {
    let mut into = [0u8; 8];
    let size = size.min(into.len());
    match link.read(&mut into[..size]) {
        Ok(count) => {
            let text = shown::bytes(alloc, &into[..count])?;
            format!(in alloc; "{count} '{text}'").ok()
        }
        Err(ReadFailed) => shown::word(alloc, "Failed"),
    }
}

// What a write moved, with what was written then.
fn write(alloc: Global, link: &mut MemoryLink, piece: &str) -> Option<String> {
    let moved = link.write(piece.as_bytes());
    moved_text(alloc, moved, link.written())
}

// Files by `name=content`, and by `name:number` the calls that fail.
fn files(alloc: Global, held: &str, fails: &str) -> Option<MemoryFiles> {
    let mut contents = Vec::new(alloc);
    for word in held.split_whitespace() {
        contents.push(file(alloc, word)?).ok()?;
    }
    MemoryFiles::new(alloc, contents, name_numbers(alloc, fails)?).ok()
}

fn file(alloc: Global, word: &str) -> Option<(String, Vec<u8>)> {
    let (name, content) = word.split_once('=')?;
    let name = shown::word(alloc, name)?;
    let content = Vec::from_slice(alloc, content.as_bytes()).ok()?;
    Some((name, content))
}

fn name_numbers(alloc: Global, field: &str) -> Option<Vec<(String, u64)>> {
    let mut pairs = Vec::new(alloc);
    for word in field.split_whitespace() {
        pairs.push(name_number(alloc, word)?).ok()?;
    }
    Some(pairs)
}

fn name_number(alloc: Global, word: &str) -> Option<(String, u64)> {
    let (name, number) = word.split_once(':')?;
    let number = number.parse::<u64>().ok()?;
    Some((shown::word(alloc, name)?, number))
}

// What each call gives, which is written `name:limit`.
fn take_all(alloc: Global, held: &str, fails: &str, takes: &str) -> Option<String> {
    let mut files = files(alloc, held, fails)?;
    let mut told = String::new(alloc);
    for take in takes.split_whitespace() {
        let (name, limit) = take.split_once(':')?;
        let entry = take_one(alloc, &mut files, name, limit.parse::<u64>().ok()?)?;
        fields::add(&mut told, entry.as_str())?;
    }
    Some(told)
}

fn take_one(alloc: Global, files: &mut MemoryFiles, name: &str, limit: u64) -> Option<String> {
    if limit > 134_217_728 {
        return None;
    }
    match files.take(alloc, name, limit) {
        Ok(bytes) => {
            let text = shown::bytes(alloc, bytes.as_slice())?;
            format!(in alloc; "'{text}'").ok()
        }
        Err(FileError::Failed) => shown::word(alloc, "Failed"),
        Err(FileError::Memory) => None,
    }
}

// A door by the inputs of its connections, the room and the most that a read or write of them moves, the numbers of its calls
// that fail, and the reads and the writes that fail, each behind the number of its connection.
fn door(alloc: Global, parts: &[&str]) -> Option<MemoryDoor> {
    let [inputs, room, step, fails, read_fails, write_fails] = parts else {
        return None;
    };
    let room = room.parse::<u64>().ok()?;
    let step = step.parse::<u64>().ok()?;
    if step == 0 {
        return None;
    }
    let inputs = contents(alloc, inputs)?;
    let fails = fields::numbers(alloc, fails)?;
    let read_fails = fields::number_pairs(alloc, read_fails)?;
    let write_fails = fields::number_pairs(alloc, write_fails)?;
    MemoryDoor::new(alloc, inputs, room, step, fails, read_fails, write_fails).ok()
}

fn contents(alloc: Global, field: &str) -> Option<Vec<Vec<u8>>> {
    let mut contents = Vec::new(alloc);
    for word in field.split_whitespace() {
        let content = Vec::from_slice(alloc, word.as_bytes()).ok()?;
        contents.push(content).ok()?;
    }
    Some(contents)
}

// What each step at a door gives, and then what was written to the connections that are finished.
fn visit(alloc: Global, parts: &[&str], steps: &str) -> Option<String> {
    let mut door = door(alloc, parts)?;
    let mut told = String::new(alloc);
    take_steps(alloc, &mut door, &mut told, steps)?;
    tell_finished(alloc, &door, &mut told)?;
    Some(told)
}

fn take_steps(alloc: Global, door: &mut MemoryDoor, told: &mut String, steps: &str) -> Option<()> {
    let mut conn = None;
    for step in steps.split_whitespace() {
        let entry = take_step(alloc, door, &mut conn, step)?;
        fields::add(told, entry.as_str())?;
    }
    Some(())
}

fn tell_finished(alloc: Global, door: &MemoryDoor, told: &mut String) -> Option<()> {
    for link in door.finished() {
        let written = shown::bytes(alloc, link.written())?;
        let entry = format!(in alloc; "finished '{written}'").ok()?;
        fields::add(told, entry.as_str())?;
    }
    Some(())
}

// A step is `start`, `accept`, `finish`, `read` or `write`. The last connection that was accepted is read and written, and finished.
fn take_step(
    alloc: Global,
    door: &mut MemoryDoor,
    conn: &mut Option<MemoryLink>,
    step: &str,
) -> Option<String> {
    match step {
        "start" => ending(alloc, door.start(alloc, "here:1")),
        "accept" => accept(alloc, door, conn),
        "finish" => ending(alloc, door.finish(alloc, conn.take()?)),
        "read" => read(alloc, conn.as_mut()?, 4),
        "write" => write(alloc, conn.as_mut()?, "xy"),
        _ => None,
    }
}

fn accept(alloc: Global, door: &mut MemoryDoor, conn: &mut Option<MemoryLink>) -> Option<String> {
    match door.accept(alloc) {
        Ok(link) => {
            *conn = Some(link);
            shown::word(alloc, "Ok")
        }
        Err(error) => ending(alloc, Err(error)),
    }
}

fn ending(alloc: Global, ending: Result<(), DoorError>) -> Option<String> {
    match ending {
        Ok(()) => shown::word(alloc, "Ok"),
        Err(DoorError::Failed) => shown::word(alloc, "Failed"),
        Err(DoorError::Memory) => None,
    }
}

fn is_sendable(alloc: Global, host: &str, target: &str) -> Option<String> {
    let at = endpoint(alloc, host, target)?;
    shown::truth(alloc, at.is_sendable())
}

// The target is `/` and a piece so many times.
fn is_long_sendable(alloc: Global, host: &str, piece: &str, times: &str) -> Option<String> {
    let rest = fields::repeated(alloc, piece, times)?;
    let target = format!(in alloc; "/{rest}").ok()?;
    is_sendable(alloc, host, target.as_str())
}

fn endpoint(alloc: Global, host: &str, target: &str) -> Option<Endpoint> {
    endpoint_of(alloc, "A", "http://h:8001/t", host, 8001, target)
}

fn copy_endpoint(alloc: Global, parts: &[&str]) -> Option<String> {
    let [name, iri, host, port, target] = parts else {
        return None;
    };
    let port = port.parse::<u16>().ok()?;
    let at = endpoint_of(alloc, name, iri, host, port, target)?;
    copied(alloc, &at)
}

fn copied(alloc: Global, at: &Endpoint) -> Option<String> {
    let copy = at.copy(alloc).ok()?;
    let (name, iri, host) = (copy.name(), copy.iri().text(), copy.host());
    let (port, target) = (copy.port(), copy.target());
    format!(in alloc; "{name} {iri} {host} {port} {target}").ok()
}
