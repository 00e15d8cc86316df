//! The calls of `fx_engine` at a query over members that are named A, B and so on, A at port 8001, B at port 8002. What comes of them is a text.
ghost use Rattle.std.specs.Prelude.{◌<◌, ◌≤◌, IfSome, length};
ghost use Rattle.fx_grammar.specs.Accepted.{IsSpellable};

use fx_algebra::Query;
use fx_engine::{
    Down, DownCause, FedError, LeftCause, Options, OutcomeInRounds, ReplyFault, Round, fault_code,
    fault_words, federate, plan_parts,
};
use fx_notation::{escapes, shown};
use fx_plan::explain;
use fx_sources::{AskCache, Registry};
use fx_syntax::parse;
use fx_terms::{Boxed, Iri};
use fx_wire::Wire;
use std::alloc::Global;
use std::fmt::Write;
use std::sync::Wait;
use std::thread::Threads;

/// The query of a field.
pub(crate) fn parsed(alloc: Global, field: &str) -> Option<Boxed<Query>>
    ensures { IfSome result (λ query. IsSpellable query) }
{
    let text = escapes::text(alloc, field)?;
    match parse(alloc, text.as_bytes()) {
        Ok(query) => Boxed::new(alloc, query).ok(),
        Err(_) => None,
    }
}

/// The answer of a query in batches of so many rows, or the refusal.
pub(crate) fn answered<R: Threads + Wait + Sync, W: Wire + Send>(
    rt: &R,
    alloc: Global,
    query: &Query,
    block: u32,
    registry: &Registry,
    cache: &mut AskCache,
    wires: &mut [W],
) -> Option<String>
    requires wired { (0 < length wires.old) × (length wires.old ≤ 16) }
    requires spellable { IsSpellable query.now }
{
    if block == 0 || block > 64 {
        return None;
    }
    match federate(rt, alloc, query, registry, cache, Options { block }, wires) {
        Ok(all) => outcome_text(alloc, &all),
        Err(error) => refusal_text(alloc, &error),
    }
}

/// The text of the plan, or the refusal.
pub(crate) fn planned<R: Threads + Wait + Sync, W: Wire + Send>(
    rt: &R,
    alloc: Global,
    query: &Query,
    registry: &Registry,
    wires: &mut [W],
) -> Option<String>
    requires wired { (0 < length wires.old) × (length wires.old ≤ 16) }
    requires spellable { IsSpellable query.now }
{
    let mut cache = AskCache::new(alloc).ok()?;
    match plan_parts(rt, alloc, query, registry, &mut cache, wires) {
        Ok(plan) => explain(alloc, plan.parts.as_slice(), registry.endpoints()).ok(),
        Err(error) => refusal_text(alloc, &error),
    }
}

/// The registry of so many members.
pub(crate) fn registry_of(alloc: Global, members: usize) -> Option<Registry> {
    let mut text = String::new(alloc);
    for number in 0..members {
        let (name, port) = (name_of(number)?, port_of(number)?);
        writeln!(text, "{name} http://127.0.0.1:{port}/sparql").ok()?;
    }
    Registry::read(alloc, text.as_bytes()).ok()
}

/// The same, where those are marked as optional whose names these are.
pub(crate) fn marked_registry(alloc: Global, members: usize, marked: &str) -> Option<Registry> {
    let mut text = String::new(alloc);
    for number in 0..members {
        let (name, port) = (name_of(number)?, port_of(number)?);
        let flag = if marked.contains(name) {
            " optional"
        } else {
            ""
        };
        writeln!(text, "{name} http://127.0.0.1:{port}/sparql{flag}").ok()?;
    }
    Registry::read(alloc, text.as_bytes()).ok()
}

/// The address of the member at a port.
pub(crate) fn address(alloc: Global, port: u16) -> Option<Iri> {
    let text = format!(in alloc; "http://127.0.0.1:{port}/sparql").ok()?;
    Iri::read(alloc, text.as_str()).ok()
}

/// The name of the member of a number.
pub(crate) fn name_of(number: usize) -> Option<&'static str> {
    match number {
        0 => Some("A"),
        1 => Some("B"),
        2 => Some("C"),
        3 => Some("D"),
        _ => None,
    }
}

/// Its port.
pub(crate) fn port_of(number: usize) -> Option<u16> {
    match number {
        0 => Some(8001),
        1 => Some(8002),
        2 => Some(8003),
        3 => Some(8004),
        _ => None,
    }
}

// The answer, and behind it each SERVICE that is down, and each round that was abandoned.
fn outcome_text(alloc: Global, all: &OutcomeInRounds) -> Option<String> {
    let mut text = shown::answer(alloc, &all.outcome.answer)?;
    for down in all.outcome.down.as_slice() {
        push_down(&mut text, down)?;
    }
    for round in all.abandoned.as_slice() {
        push_round(&mut text, round)?;
    }
    Some(text)
}

/// The members that it left out, and the numbers of the SERVICEs that were down in it.
pub(crate) fn push_round(text: &mut String, round: &Round) -> Option<()> {
    for left in round.left.as_slice() {
        let name = name_of(left.at as usize)?;
        write!(text, " left out {name} ").ok()?;
        push_left_cause(text, &left.why)?;
    }
    for number in round.down.as_slice() {
        write!(text, " while {number} was down").ok()?;
    }
    Some(())
}

fn push_left_cause(text: &mut String, why: &LeftCause) -> Option<()> {
    match why {
        LeftCause::Failed => text.push_str("Failed").ok(),
        LeftCause::Bad(bad) => push_fault(text, bad.why),
        LeftCause::TooLong { length } => write!(text, "TooLong {length}").ok(),
    }
}

/// A SERVICE that is down, and why.
pub(crate) fn push_down(text: &mut String, down: &Down) -> Option<()> {
    let (place, iri) = (down.place, down.iri.text());
    write!(text, " down {place} {iri} ").ok()?;
    push_cause(text, &down.why)
}

fn push_cause(text: &mut String, why: &DownCause) -> Option<()> {
    match why {
        DownCause::Failed => text.push_str("Failed").ok(),
        DownCause::Bad(bad) => push_fault(text, bad.why),
        DownCause::TooLong { length } => write!(text, "TooLong {length}").ok(),
        DownCause::Unknown => text.push_str("Unknown").ok(),
    }
}

fn push_fault(text: &mut String, why: ReplyFault) -> Option<()> {
    let words = fault_words(why);
    match fault_code(why) {
        None => write!(text, "Bad {words}").ok(),
        Some(code) => write!(text, "Bad {words} {code}").ok(),
    }
}

/// A refusal.
pub(crate) fn refusal_text(alloc: Global, refusal: &FedError) -> Option<String> {
    match refusal {
        FedError::Member { name } => {
            let name = name.as_str();
            format!(in alloc; "member {name} failed").ok()
        }
        FedError::Service { iri } => {
            let iri = iri.text();
            format!(in alloc; "service {iri} failed").ok()
        }
        FedError::BadReply { name, bad } => fault_text(alloc, name.as_str(), bad.why),
        FedError::RequestTooLong { name, length } => {
            let name = name.as_str();
            format!(in alloc; "request for {name} has {length} bytes").ok()
        }
        FedError::UnknownService { iri } => {
            let iri = iri.text();
            format!(in alloc; "unknown service {iri}").ok()
        }
        FedError::Memory => None,
    }
}

fn fault_text(alloc: Global, name: &str, why: ReplyFault) -> Option<String> {
    let words = fault_words(why);
    match fault_code(why) {
        None => format!(in alloc; "bad reply from {name}: {words}").ok(),
        Some(code) => format!(in alloc; "bad reply from {name}: {words} {code}").ok(),
    }
}
