//! Wires in memory.
//!
//! A field whose name begins with `http://` is a reply of the member with this address, or, over graphs, its graph. Exchanges that are to
//! fail are named by their numbers on the wire, or have a blank between: each is a member's address, a `=`, and its number there.

use crate::files::{is_address, lengthened};
use crate::watched::WatchedWire;
use fx_member::{FaultWire, GraphWire};
use fx_notation::fields::numbers;
use fx_notation::{escapes, fields};
use fx_ntriples::read_graph;
use fx_terms::{Graph, Iri};
use fx_wire::script_wires::Answered;
use std::alloc::Global;
use std::fmt::Write;

/// The replies of fields, where `{long}` stands once at most in each, for so many letters.
pub fn replies(alloc: Global, fields: &[&str], count: &str) -> Option<Vec<(Iri, Vec<u8>)>> {
    let mut replies = Vec::new(alloc);
    for field in fields {
        let (name, content) = field.split_once('=')?;
        if is_address(name) {
            let address = Iri::read(alloc, name).ok()?;
            replies
                .push((address, lengthened(alloc, content, count)?))
                .ok()?;
        }
    }
    Some(replies)
}

/// A wire over graphs, by the exchanges with addresses that are to fail.
pub fn fault_wire(alloc: Global, failing: &str, fields: &[&str]) -> Option<FaultWire> {
    let fails_at = exchanges(alloc, failing)?;
    let graphs = GraphWire::new(alloc, graphs(alloc, fields)?).ok()?;
    FaultWire::new(alloc, graphs, Vec::new(alloc), fails_at).ok()
}

/// A wire over graphs that fails at its exchanges of these numbers.
pub fn wire(alloc: Global, failing: &str, fields: &[&str]) -> Option<FaultWire> {
    let wire = GraphWire::new(alloc, graphs(alloc, fields)?).ok()?;
    let fails = numbers(alloc, failing)?;
    FaultWire::new(alloc, wire, fails, Vec::new(alloc)).ok()
}

/// So many wires, one at least, of which the first fails at its exchange of this number; at none where it is 0.
pub fn watched_wires(
    alloc: Global,
    count: u64,
    number: u64,
    fields: &[&str],
) -> Option<Vec<WatchedWire>> {
    let mut wires = vec![in alloc; watched_wire(alloc, number, fields)?].ok()?;
    for _ in 1..count {
        wires.push(watched_wire(alloc, 0, fields)?).ok()?;
    }
    Some(wires)
}

fn watched_wire(alloc: Global, number: u64, fields: &[&str]) -> Option<WatchedWire> {
    let fails = vec![in alloc; number].ok()?;
    let graphs = GraphWire::new(alloc, graphs(alloc, fields)?).ok()?;
    let wire = FaultWire::new(alloc, graphs, fails, Vec::new(alloc)).ok()?;
    Some(WatchedWire::new(alloc, wire))
}

/// The graphs of fields, each at the address that is the field's name.
pub fn graphs(alloc: Global, fields: &[&str]) -> Option<Vec<(Iri, Graph)>> {
    let mut graphs = Vec::new(alloc);
    for field in fields {
        let (name, content) = field.split_once('=')?;
        if is_address(name) {
            let address = Iri::read(alloc, name).ok()?;
            graphs.push((address, graph(alloc, content)?)).ok()?;
        }
    }
    Some(graphs)
}

fn graph(alloc: Global, content: &str) -> Option<Graph> {
    let bytes = escapes::bytes(alloc, content)?;
    read_graph(alloc, bytes.as_slice()).ok()
}

// The exchanges that are to fail, by address and number.
fn exchanges(alloc: Global, failing: &str) -> Option<Vec<(Iri, u64)>> {
    let mut exchanges = Vec::new(alloc);
    for call in failing.split_whitespace() {
        let (name, number) = call.split_once('=')?;
        if is_address(name) {
            let address = Iri::read(alloc, name).ok()?;
            exchanges.push((address, number.parse::<u64>().ok()?)).ok()?;
        }
    }
    Some(exchanges)
}

/// The port and the text of each exchange.
pub fn push_log(text: &mut String, log: &[Answered]) -> Option<()> {
    text.push_str(" | log").ok()?;
    for exchange in log {
        let port = exchange.at.port();
        let body = fields::body(exchange.request.as_slice())?;
        write!(text, " {port} {body};").ok()?;
    }
    Some(())
}
