//! The rows of a fixed query, counted over members.
ghost use Rattle.std.specs.Prelude.{◌≡◌, ◌<◌, ◌≤◌, IfErr, IfOk, length, map};
ghost use Rattle.fx_traffic.specs.Gains.{AreAfter, wires_seen};
ghost use Rattle.fx_commands.specs.Counting.{IsOfMember, IsRowCount, WasCounted, generated_members, generated_query};
ghost use Rattle.fx_commands.specs.Counting as spec;
ghost use Rattle.fx_commands.specs.MemberSteps.{IsAnswered};

use crate::federated::outcome;
use fx_algebra::{Answer, Query};
use fx_engine::{FedError, OutcomeInRounds};
use fx_sources::{Registry, RegistryError};
use fx_syntax::{SyntaxError, parse};
use fx_terms::{Boxed, Memory};
use fx_wire::Wire;
use std::alloc::Global;
use std::sync::Wait;
use std::thread::Threads;

// How many rows one request asks for at most.
const BLOCK: u32 = 15;

/// How many rows this query has over the union of the graphs of three members, whose names are M0, M1 and M2, and whose addresses are
/// `http://127.0.0.1:9000/sparql`, and the same with 9001 and 9002:
/// `SELECT ?a ?c WHERE { ?a <http://g/knows> ?b . ?b <http://g/knows> ?c . ?c <http://g/age> ?n FILTER ( ?n < 30 ) }`.
///
/// The members are asked over the wires, with a new cache, in batches of 15 rows. The errors come as those of `federate`, but for `Service` and `UnknownService`,
/// which never come.
pub fn count_rows<R: Threads + Wait + Sync, W: Wire + Send>(
    rt: &R,
    alloc: Global,
    wires: &mut [W],
) -> Result<u64, FedError>
    requires wired { (0 < length wires.old) × (length wires.old ≤ 16) }

    // Where the wires tell the graphs of the three addresses, whatever these are, the number is that of the query's rows over their union.
    ensures counted { IfOk result (IsRowCount (map W.seen wires.old)) }

    // What was exchanged, and the cause of each refusal.
    ensures asked { WasCounted (wires_seen W.tells_log W.counts_alone W.seen wires.old wires.new) result }
    ensures refused { IfErr result IsOfMember }
    ensures wired { AreAfter (map W.seen wires.old) (map W.seen wires.new) }
{
    match over_members(rt, alloc, wires) {
        Ok(all) => Ok(rows_of(&all.outcome.answer)),
        Err(error) => Err(error),
    }
}

// How many rows an answer has.
fn rows_of(answer: &Answer) -> u64
    ensures { result ≡ length (spec.rows_in answer.now) }
{
    match answer {
        Answer::Table { columns: _, rows } => rows.as_slice().len() as u64,
        Answer::Truth(_) => 0,
    }
}

// What the members give for the query.
fn over_members<R: Threads + Wait + Sync, W: Wire + Send>(
    rt: &R,
    alloc: Global,
    wires: &mut [W],
) -> Result<OutcomeInRounds, FedError>
    requires wired { (0 < length wires.old) × (length wires.old ≤ 16) }
    ensures answered { IsAnswered (wires_seen W.tells_log W.counts_alone W.seen wires.old wires.new) generated_members generated_query 15 result }
    ensures wired { AreAfter (map W.seen wires.old) (map W.seen wires.new) }
{
    match members(alloc) {
        Ok(members) => over(rt, alloc, &members, wires),
        Err(_) => Err(FedError::Memory),
    }
}

fn over<R: Threads + Wait + Sync, W: Wire + Send>(
    rt: &R,
    alloc: Global,
    members: &Registry,
    wires: &mut [W],
) -> Result<OutcomeInRounds, FedError>
    requires wired { (0 < length wires.old) × (length wires.old ≤ 16) }
    ensures answered { IsAnswered (wires_seen W.tells_log W.counts_alone W.seen wires.old wires.new) members.now generated_query 15 result }
    ensures wired { AreAfter (map W.seen wires.old) (map W.seen wires.new) }
{
    match query(alloc) {
        Ok(query) => outcome(rt, alloc, members, query.get(), BLOCK, wires),
        Err(_) => Err(FedError::Memory),
    }
}

// The members, from the text of their registry.
fn members(alloc: Global) -> Result<Registry, Memory>
    ensures { IfOk result (λ members. members ≡ generated_members) }
{
    match Registry::read(
        alloc,
        b"M0 http://127.0.0.1:9000/sparql\nM1 http://127.0.0.1:9001/sparql\nM2 http://127.0.0.1:9002/sparql\n",
    ) {
        Ok(members) => Ok(members),
        Err(RegistryError::Memory) => Err(Memory),
        Err(RegistryError::Bad { line: _ }) => unreachable!(),
        Err(RegistryError::TooMany { line: _ }) => unreachable!(),
        Err(RegistryError::RepeatedName { line: _ }) => unreachable!(),
        Err(RegistryError::RepeatedUrl { line: _ }) => unreachable!(),
    }
}

// The query, from its text as it is printed.
fn query(alloc: Global) -> Result<Boxed<Query>, Memory>
    ensures { IfOk result (λ query. query ≡ generated_query) }
{
    match parse(
        alloc,
        b"SELECT ?a ?c WHERE { ?a <http://g/knows> ?b . ?b <http://g/knows> ?c . ?c <http://g/age> ?n . FILTER ( ?n < \"30\"^^<http://www.w3.org/2001/XMLSchema#integer> ) }",
    ) {
        Ok(query) => boxed(alloc, query),
        Err(SyntaxError::Memory) => Err(Memory),
        Err(SyntaxError::Refused { kind: _, place: _ }) => unreachable!(),
    }
}

fn boxed(alloc: Global, query: Query) -> Result<Boxed<Query>, Memory>
    ensures { IfOk result (λ boxed. boxed ≡ query) }
{
    Ok(Boxed::new(alloc, query)?)
}
