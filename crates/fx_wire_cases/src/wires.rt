//! The calls of `fx_wire`.

use fx_outside::Endpoint;
use fx_terms::Iri;
use fx_wire::{ScriptWire, Wire, WireError};
use std::alloc::Global;
use std::fmt::Write;

/// What a call gives.
pub fn answer(alloc: Global, call: &str, inputs: &[&str]) -> Option<String> {
    match (call, inputs) {
        ("ScriptWire", [replies, exchanges]) => exchanged(alloc, replies, exchanges),
        _ => None,
    }
}

// The replies that exchanges give, and the log behind them.
fn exchanged(alloc: Global, replies: &str, exchanges: &str) -> Option<String> {
    let mut wire = ScriptWire::new(alloc, script(alloc, replies)?).ok()?;
    exchanged_over(alloc, &mut wire, exchanges)
}

fn exchanged_over(alloc: Global, wire: &mut ScriptWire, exchanges: &str) -> Option<String> {
    let mut text = String::new(alloc);
    for exchange in exchanges.split(' ') {
        let reply = exchange_reply(alloc, wire, exchange)?;
        write!(text, "{reply} ").ok()?;
    }
    push_log(&mut text, wire)?;
    Some(text)
}

// Replies for the addresses at ports: `1=one 2=four`.
fn script(alloc: Global, replies: &str) -> Option<Vec<(Iri, Vec<u8>)>> {
    let mut script = Vec::new(alloc);
    for word in replies.split(' ') {
        script.push(script_entry(alloc, word)?).ok()?;
    }
    Some(script)
}

fn script_entry(alloc: Global, word: &str) -> Option<(Iri, Vec<u8>)> {
    let (port, reply) = word.split_once('=')?;
    let reply = Vec::from_slice(alloc, reply.as_bytes()).ok()?;
    Some((address(alloc, port)?, reply))
}

// The reply to an exchange, `PORT:REQUEST:LIMIT`, between quotes, or `Failed`.
fn exchange_reply(alloc: Global, wire: &mut ScriptWire, exchange: &str) -> Option<String> {
    let (port, rest) = exchange.split_once(':')?;
    let (request, limit) = rest.split_once(':')?;
    let limit = limit.parse::<u64>().ok()?;
    let at = endpoint(alloc, port)?;
    if limit > 134_217_728 {
        return None;
    }
    let reply = wire.exchange(alloc, &at, request.as_bytes(), limit);
    reply_text(alloc, reply)
}

/// A reply between quotes, or `Failed`.
pub fn reply_text(alloc: Global, reply: Result<Vec<u8>, WireError>) -> Option<String> {
    match reply {
        Ok(reply) => {
            let reply = String::from_utf8(reply).ok()?;
            format!(in alloc; "'{reply}'").ok()
        }
        Err(WireError::Failed) => String::from_str(alloc, "Failed").ok(),
        Err(WireError::Memory) => None,
    }
}

fn push_log(text: &mut String, wire: &ScriptWire) -> Option<()> {
    text.push_str("log").ok()?;
    for answered in wire.log() {
        let port = answered.at.port();
        let request = str::from_utf8(answered.request.as_slice()).ok()?;
        let reply = str::from_utf8(answered.reply.as_slice()).ok()?;
        write!(text, " {port}:{request}:{reply}").ok()?;
    }
    Some(())
}

fn address(alloc: Global, port: &str) -> Option<Iri> {
    let text = address_text(alloc, port)?;
    Iri::read(alloc, text.as_str()).ok()
}

fn address_text(alloc: Global, port: &str) -> Option<String> {
    format!(in alloc; "http://127.0.0.1:{port}/sparql").ok()
}

/// The endpoint at a port of this machine.
pub fn endpoint(alloc: Global, port: &str) -> Option<Endpoint> {
    let number = port.parse::<u16>().ok()?;
    let iri = address_text(alloc, port)?;
    endpoint_of(alloc, "A", iri.as_str(), "127.0.0.1", number, "/sparql")
}

/// The endpoint of these parts.
pub fn endpoint_of(
    alloc: Global,
    name: &str,
    iri: &str,
    host: &str,
    port: u16,
    target: &str,
) -> Option<Endpoint> {
    let iri = Iri::read(alloc, iri).ok()?;
    let name = String::from_str(alloc, name).ok()?;
    let host = String::from_str(alloc, host).ok()?;
    let target = String::from_str(alloc, target).ok()?;
    Some(Endpoint::new(name, iri, host, port, target))
}
