//! The calls of `fx_engine`, over two endpoints that answer by a script behind one wire: A at port 8001, B at port 8002. The replies of an endpoint
//! have a `|` between: `yes` and `no`, tables as their columns, a `/`, and their rows with a `;` behind each, and bytes that begin
//! with `HTTP/1.1 `.
ghost use Rattle.std.specs.Prelude.{◌≡◌, ◌<◌, ◌≤◌, IfSome, length};

use crate::calls;
use crate::calls::{address, parsed, registry_of};
use fx_notation::{escapes, fields};
use fx_sources::{AskCache, Registry};
use fx_terms::Iri;
use fx_wire::ScriptWire;
use std::alloc::Global;
use std::fmt::Write;
use std::sync::Wait;
use std::thread::Threads;

/// What a call gives.
pub fn answer<R: Threads + Wait + Sync>(
    rt: &R,
    alloc: Global,
    call: &str,
    inputs: &[&str],
) -> Option<String> {
    match (call, inputs) {
        ("federate", [query, first, second]) => federated(rt, alloc, query, first, second),
        ("federate with one cache", steps) => federated_in_turn(rt, alloc, false, steps),
        ("federate without B, if need be", steps) => federated_in_turn(rt, alloc, true, steps),
        ("plan_parts", [query, first, second]) => planned(rt, alloc, query, first, second),
        _ => None,
    }
}

// How many exchanges were answered, and the answer.
fn federated<R: Threads + Wait + Sync>(
    rt: &R,
    alloc: Global,
    query: &str,
    first: &str,
    second: &str,
) -> Option<String> {
    let registry = registry_of(alloc, 2)?;
    let mut wires = wires_of(alloc, first, second)?;
    let mut cache = AskCache::new(alloc).ok()?;
    let answer = answered(
        rt,
        alloc,
        &registry,
        query,
        &mut cache,
        wires.as_mut_slice(),
    )?;
    let count = exchanges(wires.as_slice())?;
    format!(in alloc; "{count} exchanges: {answer}").ok()
}

fn exchanges(wires: &[ScriptWire]) -> Option<u64> {
    let mut count: u64 = 0;
    for wire in wires {
        count = count.checked_add(wire.log().len() as u64)?;
    }
    Some(count)
}

// Queries that are answered one after the other with one cache, each with the replies of the endpoints behind it, where B is optional or not.
fn federated_in_turn<R: Threads + Wait + Sync>(
    rt: &R,
    alloc: Global,
    optional: bool,
    steps: &[&str],
) -> Option<String> {
    let registry = registry_with(alloc, optional)?;
    let mut cache = AskCache::new(alloc).ok()?;
    let mut text = String::new(alloc);
    for step in steps.chunks(3) {
        let [query, first, second] = step else {
            return None;
        };
        let told = told(rt, alloc, &registry, &mut cache, query, first, second)?;
        fields::add_behind(&mut text, " || ", told.as_str())?;
    }
    Some(text)
}

// A, and B as it is.
fn registry_with(alloc: Global, optional: bool) -> Option<Registry> {
    if !optional {
        return registry_of(alloc, 2);
    }
    Registry::read(
        alloc,
        b"A http://127.0.0.1:8001/sparql\nB http://127.0.0.1:8002/sparql optional\n",
    )
    .ok()
}

// What is sent, the answer, and how many entries the cache holds then.
fn told<R: Threads + Wait + Sync>(
    rt: &R,
    alloc: Global,
    registry: &Registry,
    cache: &mut AskCache,
    query: &str,
    first: &str,
    second: &str,
) -> Option<String> {
    let mut wires = wires_of(alloc, first, second)?;
    let answer = answered(rt, alloc, registry, query, cache, wires.as_mut_slice())?;
    let sent = sent(alloc, wires.as_slice())?;
    let held = cache.len();
    format!(in alloc; "{sent} => {answer} holds {held}").ok()
}

// What a query answers, or its refusal.
fn answered<R: Threads + Wait + Sync>(
    rt: &R,
    alloc: Global,
    registry: &Registry,
    field: &str,
    cache: &mut AskCache,
    wires: &mut [ScriptWire],
) -> Option<String>
    requires { (0 < length wires.old) × (length wires.old ≤ 16) }
{
    let query = parsed(alloc, field)?;
    calls::answered(rt, alloc, query.get(), 15, registry, cache, wires)
}

// The text of the plan, or the refusal.
fn planned<R: Threads + Wait + Sync>(
    rt: &R,
    alloc: Global,
    field: &str,
    first: &str,
    second: &str,
) -> Option<String> {
    let mut wires = wires_of(alloc, first, second)?;
    planned_over(rt, alloc, field, wires.as_mut_slice())
}

fn planned_over<R: Threads + Wait + Sync>(
    rt: &R,
    alloc: Global,
    field: &str,
    wires: &mut [ScriptWire],
) -> Option<String>
    requires { (0 < length wires.old) × (length wires.old ≤ 16) }
{
    let registry = registry_of(alloc, 2)?;
    let query = parsed(alloc, field)?;
    calls::planned(rt, alloc, query.get(), &registry, wires)
}

// What was sent, each as its port and its text with a `;` behind.
fn sent(alloc: Global, wires: &[ScriptWire]) -> Option<String> {
    let mut text = String::new(alloc);
    for wire in wires {
        for exchange in wire.log() {
            let body = fields::body(exchange.request.as_slice())?;
            let port = exchange.at.port();
            write!(text, "{port} {body};").ok()?;
        }
    }
    if text.is_empty() {
        text.push_str("nothing").ok()?;
    }
    Some(text)
}

/// One wire over both endpoints.
pub(crate) fn wires_of(alloc: Global, first: &str, second: &str) -> Option<Vec<ScriptWire>>
    ensures { IfSome result (λ wires. length wires.items ≡ 1) }
{
    let mut script = Vec::new(alloc);
    push_replies(alloc, &mut script, 8001, first)?;
    push_replies(alloc, &mut script, 8002, second)?;
    let mut wires = Vec::new(alloc);
    wires.push(ScriptWire::new(alloc, script).ok()?).ok()?;
    Some(wires)
}

fn push_replies(
    alloc: Global,
    script: &mut Vec<(Iri, Vec<u8>)>,
    port: u16,
    field: &str,
) -> Option<()> {
    let texts = escapes::text(alloc, field)?;
    for text in texts.as_str().split('|') {
        if !text.is_empty() {
            script
                .push((address(alloc, port)?, reply(alloc, text)?))
                .ok()?;
        }
    }
    Some(())
}

fn reply(alloc: Global, text: &str) -> Option<Vec<u8>> {
    if text.starts_with("HTTP/1.1 ") {
        return Vec::from_slice(alloc, text.as_bytes()).ok();
    }
    let body = match text.split_once('/') {
        Some((columns, rows)) => table(alloc, columns, rows)?,
        None => {
            let truth = text == "yes";
            format!(in alloc; "{{\"head\":{{}},\"boolean\":{truth}}}").ok()?
        }
    };
    let head = "HTTP/1.1 200 OK\r\nContent-Type: application/sparql-results+json\r\n\r\n";
    let reply = format!(in alloc; "{head}{body}").ok()?;
    Some(reply.into_bytes())
}

fn push_between(text: &mut String, number: usize, mark: &str) -> Option<()> {
    if number > 0 {
        text.push_str(mark).ok()?;
    }
    Some(())
}

// The document of a table.
fn table(alloc: Global, columns: &str, rows: &str) -> Option<String> {
    let mut text = String::from_str(alloc, "{\"head\":{\"vars\":[").ok()?;
    for (number, column) in columns.split_whitespace().enumerate() {
        push_between(&mut text, number, ",")?;
        write!(text, "\"{column}\"").ok()?;
    }
    text.push_str("]},\"results\":{\"bindings\":[").ok()?;
    for (number, row) in rows.split_inclusive(';').enumerate() {
        push_between(&mut text, number, ",")?;
        push_row(&mut text, row.trim_end_matches(';'))?;
    }
    text.push_str("]}}").ok()?;
    Some(text)
}

fn push_row(text: &mut String, row: &str) -> Option<()> {
    text.push('{').ok()?;
    for (number, pair) in row.split_whitespace().enumerate() {
        let (name, value) = pair.split_once('=')?;
        push_between(text, number, ",")?;
        let kind = if value.parse::<u64>().is_ok() {
            "literal"
        } else {
            "uri"
        };
        write!(
            text,
            "\"{name}\":{{\"type\":\"{kind}\",\"value\":\"{value}\"}}"
        )
        .ok()?;
    }
    text.push('}').ok()?;
    Some(())
}
