//! The calls of `fx_member`.

use crate::stores::store;
use crate::wires::{endpoint, reply_text};
use fx_algebra::Query;
use fx_http::request_bytes;
use fx_member::{FaultWire, GraphWire, MemberError, ServeError, Served, serve_one};
use fx_notation::{escapes, fields, notation, shown};
use fx_outside::{Endpoint, MemoryLink};
use fx_store::Store;
use fx_terms::Iri;
use fx_wire::Wire;
use std::alloc::Global;

/// What a call gives.
pub fn answer(alloc: Global, call: &str, inputs: &[&str]) -> Option<String> {
    match call {
        "GraphWire" => over_graphs(alloc, inputs),
        "FaultWire" => with_faults(alloc, inputs),
        _ => of_graph(alloc, call, inputs),
    }
}

fn over_graphs(alloc: Global, inputs: &[&str]) -> Option<String> {
    match inputs {
        [graph, exchanges @ ..] => graph_exchanges(alloc, graph, exchanges),
        _ => None,
    }
}

fn with_faults(alloc: Global, inputs: &[&str]) -> Option<String> {
    match inputs {
        [graph, fails, exchanges @ ..] => fault_exchanges(alloc, graph, fails, exchanges),
        _ => None,
    }
}

// The calls over one graph.
fn of_graph(alloc: Global, call: &str, inputs: &[&str]) -> Option<String> {
    match inputs {
        [graph, input] => of_input(alloc, call, graph, input),
        [graph, first, second] => of_two(alloc, call, graph, first, second),
        _ => None,
    }
}

fn of_input(alloc: Global, call: &str, graph: &str, input: &str) -> Option<String> {
    match call {
        "serve_one" => served(alloc, graph, input),
        "serve_one with a read that fails" => failing_reads(alloc, graph, input),
        _ => None,
    }
}

fn of_two(alloc: Global, call: &str, graph: &str, first: &str, second: &str) -> Option<String> {
    match call {
        "answer" => answered(alloc, graph, first, second),
        "serve_one with a write that fails" => failing_writes(alloc, graph, first, second),
        _ => None,
    }
}

// The answer to a query where so many occurrences of SERVICE are down, from the first on, or the first that isn't.
fn answered(alloc: Global, graph: &str, query: &str, down: &str) -> Option<String> {
    let store = store(alloc, graph)?;
    answered_by(alloc, &store, query, down)
}

fn answered_by(alloc: Global, store: &Store, query: &str, down: &str) -> Option<String> {
    let query = notation::query(alloc, query)?;
    answered_with(alloc, store, query.get(), down)
}

fn answered_with(alloc: Global, store: &Store, query: &Query, down: &str) -> Option<String> {
    let down = numbers_below(alloc, down.parse::<u64>().ok()?)?;
    match fx_member::answer(alloc, store, query, down.as_slice()) {
        Ok(answer) => shown::answer(alloc, &answer),
        Err(MemberError::ServiceHere { place }) => {
            format!(in alloc; "ServiceHere at {place}").ok()
        }
        Err(MemberError::Memory) => None,
    }
}

fn numbers_below(alloc: Global, end: u64) -> Option<Vec<u64>> {
    let mut numbers = Vec::new(alloc);
    for number in 0..end {
        numbers.push(number).ok()?;
    }
    Some(numbers)
}

// The status and the reply, the same where 1, 7 and 4096 bytes are read and written at a time.
fn served(alloc: Global, graph: &str, input: &str) -> Option<String> {
    let store = store(alloc, graph)?;
    served_by(alloc, &store, escapes::bytes(alloc, input)?.as_slice())
}

fn served_by(alloc: Global, store: &Store, input: &[u8]) -> Option<String> {
    let first = served_text(alloc, store, input, 1, 0, 0)?;
    for step in [7, 4096] {
        let text = served_text(alloc, store, input, step, 0, 0)?;
        if text != first {
            return format!(in alloc; "by {step}: {text}").ok();
        }
    }
    Some(first)
}

// Each read in turn fails, where a byte is read at a time.
fn failing_reads(alloc: Global, graph: &str, input: &str) -> Option<String> {
    let store = store(alloc, graph)?;
    failing_reads_of(alloc, &store, escapes::bytes(alloc, input)?.as_slice())
}

fn failing_reads_of(alloc: Global, store: &Store, input: &[u8]) -> Option<String> {
    for number in 1..=input.len() as u64 {
        let text = served_text(alloc, store, input, 1, number, 0)?;
        if text.as_str() != "ReadFault behind " {
            return format!(in alloc; "at read {number}: {text}").ok();
        }
    }
    shown::word(alloc, "nothing is written")
}

// Each write in turn fails, where a byte is written at a time.
fn failing_writes(alloc: Global, graph: &str, input: &str, whole: &str) -> Option<String> {
    let store = store(alloc, graph)?;
    let whole = escapes::text(alloc, whole)?;
    failing_writes_of(alloc, &store, input, whole.as_str())
}

fn failing_writes_of(alloc: Global, store: &Store, input: &str, whole: &str) -> Option<String> {
    let input = escapes::bytes(alloc, input)?;
    for number in 1..=whole.len() as u64 {
        let text = served_text(alloc, store, input.as_slice(), 1, 0, number)?;
        let front = whole.get(..number as usize - 1)?;
        if text.as_str().strip_prefix("WriteFault behind ") != Some(front) {
            return format!(in alloc; "at write {number}: {text}").ok();
        }
    }
    shown::word(alloc, "the bytes in front of it are written")
}

// The status and the reply that a link has after one request was served, or the fault and what was written. One read or write moves
// so many bytes, and the read and the write of these numbers fail.
fn served_text(
    alloc: Global,
    store: &Store,
    input: &[u8],
    step: u64,
    read: u64,
    write: u64,
) -> Option<String> {
    let mut link = link(alloc, input, step, read, write)?;
    let ended = serve_one(alloc, store, &mut link);
    ended_text(alloc, &ended, link.written())
}

fn ended_text(alloc: Global, ended: &Result<Served, ServeError>, written: &[u8]) -> Option<String> {
    let written = str::from_utf8(written).ok()?;
    match ended {
        Ok(served) => {
            let status = served.status;
            format!(in alloc; "{status} {written}").ok()
        }
        Err(ServeError::Memory) => None,
        Err(fault) => format!(in alloc; "{fault:?} behind {written}").ok(),
    }
}

fn link(alloc: Global, input: &[u8], step: u64, read: u64, write: u64) -> Option<MemoryLink> {
    let input = Vec::from_slice(alloc, input).ok()?;
    let reads = vec![in alloc; read].ok()?;
    let writes = vec![in alloc; write].ok()?;
    if step == 0 {
        return None;
    }
    MemoryLink::new(alloc, input, 4096, step, reads, writes).ok()
}

// A wire with one graph, at port 8001.
fn graph_wire(alloc: Global, graph: &str) -> Option<GraphWire> {
    let address = Iri::read(alloc, "http://127.0.0.1:8001/sparql").ok()?;
    let graph = notation::graph(alloc, graph)?;
    let graphs = vec![in alloc; (address, graph)].ok()?;
    GraphWire::new(alloc, graphs).ok()
}

// The replies of a wire over a graph, and how many exchanges its log has.
fn graph_exchanges(alloc: Global, graph: &str, exchanges: &[&str]) -> Option<String> {
    let mut wire = graph_wire(alloc, graph)?;
    let replies = replies(alloc, &mut wire, exchanges)?;
    let answered = wire.log().len();
    format!(in alloc; "{replies} log of {answered}").ok()
}

// The replies of a wire over a graph, of which the exchange of a number on the wire fails, and that of a number at port 8001: `2 7`.
fn fault_exchanges(alloc: Global, graph: &str, fails: &str, exchanges: &[&str]) -> Option<String> {
    let mut wire = fault_wire(alloc, graph, fails)?;
    replies(alloc, &mut wire, exchanges)
}

fn fault_wire(alloc: Global, graph: &str, fails: &str) -> Option<FaultWire> {
    let (number, number_there) = fails.split_once(' ')?;
    let fails = vec![in alloc; number.parse::<u64>().ok()?].ok()?;
    let address = Iri::read(alloc, "http://127.0.0.1:8001/sparql").ok()?;
    let fails_at = vec![in alloc; (address, number_there.parse::<u64>().ok()?)].ok()?;
    FaultWire::new(alloc, graph_wire(alloc, graph)?, fails, fails_at).ok()
}

// The replies to exchanges, with blanks between.
fn replies<W: Wire>(alloc: Global, wire: &mut W, exchanges: &[&str]) -> Option<String> {
    let mut text = String::new(alloc);
    for exchange in exchanges {
        let reply = reply(alloc, wire, exchange)?;
        fields::add_behind(&mut text, " ", reply.as_str())?;
    }
    Some(text)
}

// The reply to an exchange: a port, a limit, and a request, which is `query` with the text of a query, or `bytes` with its own.
fn reply<W: Wire>(alloc: Global, wire: &mut W, exchange: &str) -> Option<String> {
    let (port, rest) = exchange.split_once(' ')?;
    let (limit, rest) = rest.split_once(' ')?;
    let limit = limit.parse::<u64>().ok()?;
    let at = endpoint(alloc, port)?;
    let request = request(alloc, &at, rest)?;
    if limit > 134_217_728 {
        return None;
    }
    let reply = wire.exchange(alloc, &at, request.as_slice(), limit);
    reply_text(alloc, reply)
}

fn request(alloc: Global, at: &Endpoint, asked: &str) -> Option<Vec<u8>> {
    match asked.split_once(' ')? {
        ("query", text) => {
            if at.is_sendable() {
                request_bytes(alloc, at, text).ok()
            } else {
                None
            }
        }
        ("bytes", field) => escapes::bytes(alloc, field),
        _ => None,
    }
}
