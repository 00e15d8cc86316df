//! The calls of `fx_engine` over a list of wires. A case has the members' graphs: that of A at port 8001, of B at port 8002, and so on, behind one
//! wire that answers by the algebra of SPARQL over each.
ghost use Rattle.std.specs.Prelude.{◌≡◌, ◌<◌, ◌≤◌, IfSome, length};
ghost use Rattle.fx_grammar.specs.Accepted.{IsSpellable};

use crate::calls;
use crate::calls::{address, name_of, parsed, port_of, registry_of};
use fx_algebra::Query;
use fx_member::{FaultWire, GraphWire};
use fx_notation::{fields, notation};
use fx_sources::{AskCache, Registry};
use fx_terms::{Graph, Iri};
use std::alloc::Global;
use std::fmt::Write;
use std::sync::Wait;
use std::thread::Threads;

/// What a call gives.
pub fn answer<R: Threads + Wait + Sync>(
    rt: &R,
    alloc: Global,
    call: &str,
    inputs: &[&str],
) -> Option<String> {
    match (call, inputs) {
        ("federate", [query, block, graphs @ ..]) => federated(rt, alloc, query, block, graphs),
        ("answer of federate", [query, block, graphs @ ..]) => {
            let mut wires = wires_of(alloc, graphs)?;
            asked(rt, alloc, query, block, graphs.len(), wires.as_mut_slice())
        }
        ("federate in turn", [first, second, steps @ ..]) => {
            federated_in_turn(rt, alloc, &[*first, *second], steps)
        }
        ("plan_parts", [query, graphs @ ..]) => planned(rt, alloc, query, graphs),
        _ => None,
    }
}

// How many ASKs and how many other texts each member was sent, and the answer.
fn federated<R: Threads + Wait + Sync>(
    rt: &R,
    alloc: Global,
    query: &str,
    block: &str,
    graphs: &[&str],
) -> Option<String> {
    let mut wires = wires_of(alloc, graphs)?;
    let answer = asked(rt, alloc, query, block, graphs.len(), wires.as_mut_slice())?;
    told(alloc, wires.as_slice(), graphs.len(), answer.as_str())
}

// The answer, or the refusal.
fn asked<R: Threads + Wait + Sync>(
    rt: &R,
    alloc: Global,
    query: &str,
    block: &str,
    members: usize,
    wires: &mut [GraphWire],
) -> Option<String>
    requires { (0 < length wires.old) × (length wires.old ≤ 16) }
{
    let block = block.parse::<u32>().ok()?;
    let registry = registry_of(alloc, members)?;
    let query = parsed(alloc, query)?;
    answered(rt, alloc, query.get(), block, &registry, wires)
}

fn answered<R: Threads + Wait + Sync>(
    rt: &R,
    alloc: Global,
    query: &Query,
    block: u32,
    registry: &Registry,
    wires: &mut [GraphWire],
) -> Option<String>
    requires wired { (0 < length wires.old) × (length wires.old ≤ 16) }
    requires spellable { IsSpellable query.now }
{
    let mut cache = AskCache::new(alloc).ok()?;
    calls::answered(rt, alloc, query, block, registry, &mut cache, wires)
}

// Queries that are answered one after the other with one cache, each with the numbers of the exchanges that are to fail behind it.
fn federated_in_turn<R: Threads + Wait + Sync>(
    rt: &R,
    alloc: Global,
    graphs: &[&str],
    steps: &[&str],
) -> Option<String> {
    let registry = registry_of(alloc, graphs.len())?;
    let mut cache = AskCache::new(alloc).ok()?;
    let mut text = String::new(alloc);
    for step in steps.chunks(2) {
        let [query, fails] = step else {
            return None;
        };
        let told = told_next(rt, alloc, query, fails, graphs, &registry, &mut cache)?;
        fields::add_behind(&mut text, " || ", told.as_str())?;
    }
    Some(text)
}

// The answer, or the refusal, and how many answers to ASKs the cache holds then.
fn told_next<R: Threads + Wait + Sync>(
    rt: &R,
    alloc: Global,
    query: &str,
    fails: &str,
    graphs: &[&str],
    registry: &Registry,
    cache: &mut AskCache,
) -> Option<String> {
    let mut wires = [failing_wire(alloc, graphs, fails)?];
    let query = parsed(alloc, query)?;
    let answer = calls::answered(rt, alloc, query.get(), 15, registry, cache, &mut wires)?;
    let held = cache.len();
    format!(in alloc; "{answer} holds {held}").ok()
}

// How many ASKs and how many other texts each member was sent, and the text of the plan.
fn planned<R: Threads + Wait + Sync>(
    rt: &R,
    alloc: Global,
    query: &str,
    graphs: &[&str],
) -> Option<String> {
    let mut wires = wires_of(alloc, graphs)?;
    let plan = explained(rt, alloc, query, graphs.len(), wires.as_mut_slice())?;
    told(alloc, wires.as_slice(), graphs.len(), plan.as_str())
}

// The text of the plan, or the refusal.
fn explained<R: Threads + Wait + Sync>(
    rt: &R,
    alloc: Global,
    query: &str,
    members: usize,
    wires: &mut [GraphWire],
) -> Option<String>
    requires { (0 < length wires.old) × (length wires.old ≤ 16) }
{
    let registry = registry_of(alloc, members)?;
    let query = parsed(alloc, query)?;
    calls::planned(rt, alloc, query.get(), &registry, wires)
}

/// The letter of each member with the numbers of its ASKs and of its other texts, and what the call gave.
pub(crate) fn told(
    alloc: Global,
    wires: &[GraphWire],
    members: usize,
    given: &str,
) -> Option<String> {
    let mut text = String::new(alloc);
    for number in 0..members {
        let (asks, others) = sent_to(wires, port_of(number)?)?;
        let name = name_of(number)?;
        write!(text, "{name} {asks}+{others}, ").ok()?;
    }
    text.push_str(given).ok()?;
    Some(text)
}

// How many ASKs and how many other texts went to a port.
fn sent_to(wires: &[GraphWire], port: u16) -> Option<(u64, u64)> {
    let mut asks = 0;
    let mut others = 0;
    for wire in wires {
        for exchange in wire.log() {
            if exchange.at.port() == port {
                if fields::body(exchange.request.as_slice())?.starts_with("ASK ") {
                    asks = plus_one(asks)?;
                } else {
                    others = plus_one(others)?;
                }
            }
        }
    }
    Some((asks, others))
}

fn plus_one(number: u64) -> Option<u64> {
    number.checked_add(1)
}

/// One wire over all members.
pub(crate) fn wires_of(alloc: Global, fields: &[&str]) -> Option<Vec<GraphWire>>
    ensures { IfSome result (λ wires. length wires.items ≡ 1) }
{
    let mut wires = Vec::new(alloc);
    wires.push(wire_of(alloc, fields)?).ok()?;
    Some(wires)
}

fn wire_of(alloc: Global, fields: &[&str]) -> Option<GraphWire> {
    let mut graphs = Vec::new(alloc);
    for (number, field) in fields.iter().enumerate() {
        graphs.push(addressed(alloc, number, field)?).ok()?;
    }
    GraphWire::new(alloc, graphs).ok()
}

/// A wire over all members whose exchanges with these numbers fail.
pub(crate) fn failing_wire(alloc: Global, fields: &[&str], fails: &str) -> Option<FaultWire> {
    let wire = wire_of(alloc, fields)?;
    FaultWire::new(alloc, wire, fields::numbers(alloc, fails)?, Vec::new(alloc)).ok()
}

fn addressed(alloc: Global, number: usize, field: &str) -> Option<(Iri, Graph)> {
    let address = address(alloc, port_of(number)?)?;
    let graph = notation::graph(alloc, field)?;
    Some((address, graph))
}
