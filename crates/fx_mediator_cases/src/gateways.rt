//! The calls of `fx_gateway`: a request comes over a link in memory to a federation whose members have graphs, A at port 8001, B at port 8002, and so on, behind one wire, as in
//! `mediations`, or answer by a script, as in `engine`. The request is `query` with the text of a query, which is posted, or `bytes` with its own.
ghost use Rattle.std.specs.Prelude.{◌<◌, ◌≤◌, length};

use crate::calls::{marked_registry, push_down, push_round, refusal_text};
use crate::engine::wires_of as scripted_wires;
use crate::mediations::{failing_wire, told, wires_of};
use fx_engine::Options;
use fx_gateway::{GateError, Gated, serve_connection};
use fx_http::request_bytes;
use fx_notation::{escapes, fields, shown};
use fx_outside::{Endpoint, MemoryLink};
use fx_sources::{AskCache, Registry};
use fx_wire::Wire;
use std::alloc::Global;
use std::fmt::Write;
use std::sync::Wait;
use std::thread::Threads;

// How many bytes one read or write moves, and the numbers of the read and the write that fail; 0 is none.
#[derive(Clone, Copy)]
struct Cut {
    step: u64,
    read: u64,
    write: u64,
}

const WHOLE: Cut = Cut {
    step: 4096,
    read: 0,
    write: 0,
};

/// What a call gives.
pub fn answer<R: Threads + Wait + Sync>(
    rt: &R,
    alloc: Global,
    call: &str,
    inputs: &[&str],
) -> Option<String> {
    match (call, inputs) {
        ("serve_connection", [marked, fails, request, graphs @ ..]) => {
            served(rt, alloc, marked, fails, request, graphs)
        }
        ("serve_connection in turn", [requests, graphs @ ..]) => {
            in_turn(rt, alloc, requests, graphs)
        }
        ("serve_connection by a script", [request, first, second]) => {
            by_script(rt, alloc, request, first, second)
        }
        ("serve_connection with a read that fails", [request, graphs @ ..]) => {
            failing_reads(rt, alloc, request, graphs)
        }
        ("serve_connection with a write that fails", [request, whole, graphs @ ..]) => {
            failing_writes(rt, alloc, request, whole, graphs)
        }
        _ => None,
    }
}

// What a connection gives where the exchanges with these numbers fail, the same where 1, 7 and 4096 bytes are read and written at a time.
fn served<R: Threads + Wait + Sync>(
    rt: &R,
    alloc: Global,
    marked: &str,
    fails: &str,
    request: &str,
    graphs: &[&str],
) -> Option<String> {
    let registry = marked_registry(alloc, graphs.len(), marked)?;
    let request = request_of(alloc, &registry, request)?;
    let first = served_by(
        rt,
        alloc,
        &registry,
        fails,
        request.as_slice(),
        WHOLE,
        graphs,
    )?;
    for step in [1, 7] {
        let cut = Cut {
            step,
            read: 0,
            write: 0,
        };
        let text = served_by(rt, alloc, &registry, fails, request.as_slice(), cut, graphs)?;
        if text != first {
            return format!(in alloc; "by {step}: {text}").ok();
        }
    }
    Some(first)
}

fn served_by<R: Threads + Wait + Sync>(
    rt: &R,
    alloc: Global,
    registry: &Registry,
    fails: &str,
    request: &[u8],
    cut: Cut,
    graphs: &[&str],
) -> Option<String> {
    let mut wires = [failing_wire(alloc, graphs, fails)?];
    let mut cache = AskCache::new(alloc).ok()?;
    connection(rt, alloc, registry, &mut cache, request, cut, &mut wires)
}

// Requests with a ` | ` between, one after the other, with one cache: what each connection gives, and behind all the numbers of ASKs and of other texts that each member was sent.
fn in_turn<R: Threads + Wait + Sync>(
    rt: &R,
    alloc: Global,
    requests: &str,
    graphs: &[&str],
) -> Option<String> {
    let mut wires = wires_of(alloc, graphs)?;
    let text = turns(rt, alloc, requests, graphs.len(), wires.as_mut_slice())?;
    told(alloc, wires.as_slice(), graphs.len(), text.as_str())
}

fn turns<R: Threads + Wait + Sync, W: Wire + Send>(
    rt: &R,
    alloc: Global,
    requests: &str,
    members: usize,
    wires: &mut [W],
) -> Option<String>
    requires { (0 < length wires.old) × (length wires.old ≤ 16) }
{
    let registry = marked_registry(alloc, members, "")?;
    let mut cache = AskCache::new(alloc).ok()?;
    let mut text = String::new(alloc);
    for request in requests.split(" | ") {
        let request = request_of(alloc, &registry, request)?;
        let given = connection(
            rt,
            alloc,
            &registry,
            &mut cache,
            request.as_slice(),
            WHOLE,
            wires,
        )?;
        fields::add_behind(&mut text, " || ", given.as_str())?;
    }
    let held = cache.len();
    write!(text, " holds {held}").ok()?;
    Some(text)
}

// What a connection gives whose members answer by these replies.
fn by_script<R: Threads + Wait + Sync>(
    rt: &R,
    alloc: Global,
    request: &str,
    first: &str,
    second: &str,
) -> Option<String> {
    let mut wires = scripted_wires(alloc, first, second)?;
    let registry = marked_registry(alloc, 2, "")?;
    let mut cache = AskCache::new(alloc).ok()?;
    let request = request_of(alloc, &registry, request)?;
    connection(
        rt,
        alloc,
        &registry,
        &mut cache,
        request.as_slice(),
        WHOLE,
        wires.as_mut_slice(),
    )
}

// Each read in turn fails, where a byte is read at a time.
fn failing_reads<R: Threads + Wait + Sync>(
    rt: &R,
    alloc: Global,
    request: &str,
    graphs: &[&str],
) -> Option<String> {
    let registry = marked_registry(alloc, graphs.len(), "")?;
    let request = request_of(alloc, &registry, request)?;
    for read in 1..=request.len() as u64 {
        let cut = Cut {
            step: 1,
            read,
            write: 0,
        };
        let mut wires = wires_of(alloc, graphs)?;
        let text = read_failed(
            rt,
            alloc,
            &registry,
            request.as_slice(),
            cut,
            wires.as_mut_slice(),
        )?;
        let given = told(alloc, wires.as_slice(), graphs.len(), text.as_str())?;
        if !given.as_str().ends_with(" 0+0, ReadFault behind ") {
            return format!(in alloc; "at read {read}: {given}").ok();
        }
    }
    shown::word(alloc, "nothing is asked and nothing is written")
}

fn read_failed<R: Threads + Wait + Sync, W: Wire + Send>(
    rt: &R,
    alloc: Global,
    registry: &Registry,
    request: &[u8],
    cut: Cut,
    wires: &mut [W],
) -> Option<String>
    requires { (0 < length wires.old) × (length wires.old ≤ 16) }
{
    let mut cache = AskCache::new(alloc).ok()?;
    connection(rt, alloc, registry, &mut cache, request, cut, wires)
}

// Each write in turn fails, where a byte is written at a time.
fn failing_writes<R: Threads + Wait + Sync>(
    rt: &R,
    alloc: Global,
    request: &str,
    whole: &str,
    graphs: &[&str],
) -> Option<String> {
    let registry = marked_registry(alloc, graphs.len(), "")?;
    let request = request_of(alloc, &registry, request)?;
    let whole = escapes::text(alloc, whole)?;
    for write in 1..=whole.len() as u64 {
        let cut = Cut {
            step: 1,
            read: 0,
            write,
        };
        let text = served_by(rt, alloc, &registry, "", request.as_slice(), cut, graphs)?;
        let front = whole.as_str().get(..write as usize - 1)?;
        if text.as_str().strip_prefix("WriteFault of 200 behind ") != Some(front) {
            return format!(in alloc; "at write {write}: {text}").ok();
        }
    }
    shown::word(alloc, "the bytes in front of it are written")
}

// What one connection gives: the status and the reply that its link has, or the fault and what was written; and behind it what is known beside.
fn connection<R: Threads + Wait + Sync, W: Wire + Send>(
    rt: &R,
    alloc: Global,
    registry: &Registry,
    cache: &mut AskCache,
    request: &[u8],
    cut: Cut,
    wires: &mut [W],
) -> Option<String>
    requires { (0 < length wires.old) × (length wires.old ≤ 16) }
{
    let mut link = link_of(alloc, request, cut)?;
    let options = Options { block: 15 };
    let ended = serve_connection(rt, alloc, registry, cache, options, wires, &mut link);
    ended_text(alloc, &ended, link.written())
}

fn ended_text(alloc: Global, ended: &Result<Gated, GateError>, written: &[u8]) -> Option<String> {
    let written = str::from_utf8(written).ok()?;
    match ended {
        Ok(gated) => {
            let status = gated.status;
            let text = format!(in alloc; "{status} {written}").ok()?;
            with_rest(alloc, text, gated)
        }
        Err(GateError::WriteFault { gated }) => {
            let status = gated.status;
            let text = format!(in alloc; "WriteFault of {status} behind {written}").ok()?;
            with_rest(alloc, text, gated)
        }
        Err(GateError::ReadFault) => format!(in alloc; "ReadFault behind {written}").ok(),
        Err(GateError::Memory) => None,
    }
}

// And behind it the refusal, who is left out by which round, and what is down.
fn with_rest(alloc: Global, text: String, gated: &Gated) -> Option<String> {
    let mut text = text;
    if let Some(error) = &gated.fault {
        let refusal = refusal_text(alloc, error)?;
        write!(text, " fault {refusal}").ok()?;
    }
    for down in gated.down.as_slice() {
        push_down(&mut text, down)?;
    }
    for round in gated.abandoned.as_slice() {
        push_round(&mut text, round)?;
    }
    Some(text)
}

fn link_of(alloc: Global, request: &[u8], cut: Cut) -> Option<MemoryLink> {
    let input = Vec::from_slice(alloc, request).ok()?;
    let reads = vec![in alloc; cut.read].ok()?;
    let writes = vec![in alloc; cut.write].ok()?;
    if cut.step == 0 {
        return None;
    }
    MemoryLink::new(alloc, input, 4096, cut.step, reads, writes).ok()
}

// The bytes of a request. A query is posted as it would be to the first member.
fn request_of(alloc: Global, registry: &Registry, field: &str) -> Option<Vec<u8>> {
    match field.split_once(' ')? {
        ("query", text) => posted(alloc, registry.endpoints().first()?, text),
        ("bytes", bytes) => escapes::bytes(alloc, bytes),
        _ => None,
    }
}

fn posted(alloc: Global, at: &Endpoint, field: &str) -> Option<Vec<u8>> {
    let text = escapes::text(alloc, field)?;
    if at.is_sendable() {
        request_bytes(alloc, at, text.as_str()).ok()
    } else {
        None
    }
}
