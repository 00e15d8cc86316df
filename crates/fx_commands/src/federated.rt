//! The command `query`.
ghost use Rattle.std.specs.Prelude.{◌≡◌, ◌<◌, ◌≤◌, IfOk, IsTrue, List, ℕ, length, map};
ghost use Rattle.fx_grammar.specs.Accepted.{IsSpellable};
ghost use Rattle.fx_results.specs.Documents.{document};
ghost use Rattle.fx_traffic.specs.Gains.{AreAfter, wires_seen};
ghost use Rattle.fx_local.specs.Counts.{CountsOnly};
ghost use Rattle.fx_commands.specs.FedRefusals.{IsGivenEnd};
ghost use Rattle.fx_local.specs.Files.{file_read};
ghost use Rattle.fx_local.specs.Lines.{Gains};
ghost use Rattle.fx_lines.specs.MemberLines.{answer_lines};
ghost use Rattle.fx_commands.specs.MemberSteps.{IsAnswerCut, IsAnswerDone, IsAnswerReported, IsAnswered};
ghost use Rattle.fx_commands.specs.Query.{CountsDownBy, IsOutcomeWritten, IsQueryCut, IsQueryDone, IsQueryReported, IsQueryWritten, IsUnionAnswer, IsUnionDocument};
ghost use Rattle.fx_local.specs.Sinks.{IsCutShort, Wrote, sink_written};

use crate::refusals::{fed_status, write_fed_error};
use fx_algebra::Query;
use fx_engine::{FedError, Options, OutcomeInRounds, federate};
use fx_lines::lines;
use fx_local::reports::{write_no_memory, write_query_refusal, write_registry_refusal};
use fx_local::{Report, Status, load_query, load_registry, write_report};
use fx_outside::{Endpoint, Files, Sink};
use fx_results::write;
use fx_sources::{AskCache, Registry};
use fx_terms::Memory;
use fx_wire::Wire;
use std::alloc::Global;
use std::sync::Wait;
use std::thread::Threads;

/// Answers the query of a file over the members of the registry of a file, and writes the document on `out`, with a line on `err` for each member that is left
/// out and for each SERVICE SILENT that is down, or the line of the refusal on `err`. The registry's file is read first. A SERVICE without SILENT has to name the address of a member; the first that
/// doesn't is refused, and then nothing is asked. Each member is asked first which triple patterns it has anything for, and then, in batches of at most `block`
/// rows, for the solutions of those, and each SERVICE at its address for its own. A member that the registry marks as optional is left out where one of these fails at it, and the query is
/// asked anew of the others.
pub fn run_query<R: Threads + Wait + Sync, F: Files, W: Wire + Send, O: Sink, E: Sink>(
    rt: &R,
    alloc: Global,
    files: &mut F,
    wires: &mut [W],
    registry: &str,
    query: &str,
    block: u32,
    out: &mut O,
    err: &mut E,
) -> Status
    requires wired { (0 < length wires.old) × (length wires.old ≤ 16) }
    requires block { (0 < block) × (block ≤ 64) }
    ensures reported { (text : List ℕ) × IsQueryReported (wires_seen W.tells_log W.counts_alone W.seen wires.old wires.new) (file_read (F.seen files.old) (F.seen files.new) registry.now) (file_read (F.seen files.old) (F.seen files.new) query.now) block result text × (IsTrue E.tells_held → Gains (E.held err.old) (E.held err.new) (E.write_faults err.old) (E.write_faults err.new) text) }
    ensures written { IsTrue O.tells_held → IsQueryWritten (map W.seen wires.old) (file_read (F.seen files.old) (F.seen files.new) registry.now) (file_read (F.seen files.old) (F.seen files.new) query.now) result (O.held out.old) (O.held out.new) }
    ensures done { result ≡ Status.Done → IsQueryDone (wires_seen W.tells_log W.counts_alone W.seen wires.old wires.new) (file_read (F.seen files.old) (F.seen files.new) registry.now) (file_read (F.seen files.old) (F.seen files.new) query.now) block (sink_written O.tells_held O.held O.write_faults out.old out.new) (sink_written E.tells_held E.held E.write_faults err.old err.new) }
    ensures cut { result ≡ Status.WriteFault → IsQueryCut (wires_seen W.tells_log W.counts_alone W.seen wires.old wires.new) (file_read (F.seen files.old) (F.seen files.new) registry.now) (file_read (F.seen files.old) (F.seen files.new) query.now) block (sink_written O.tells_held O.held O.write_faults out.old out.new) }
    ensures wired { AreAfter (map W.seen wires.old) (map W.seen wires.new) }
    ensures write_fault { result ≡ Status.WriteFault → IsCutShort (IsUnionAnswer (map W.seen wires.old) (file_read (F.seen files.old) (F.seen files.new) registry.now) (file_read (F.seen files.old) (F.seen files.new) query.now)) (sink_written O.tells_held O.held O.write_faults out.old out.new) (sink_written E.tells_held E.held E.write_faults err.old err.new) }
    ensures unfailed { ¬ (result ≡ Status.WriteFault) → O.write_faults out.new ≡ O.write_faults out.old }
    ensures unfailed_lines { result ≡ Status.Done → E.write_faults err.new ≡ E.write_faults err.old }
    ensures read_faults { CountsOnly Status.ReadFault result (F.seen files.old).faults (F.seen files.new).faults }
    ensures kept { (name : List ℕ) → (F.seen files.old).faults name ≤ (F.seen files.new).faults name }
    ensures same { (name : List ℕ) → (F.seen files.new).content name ≡ (F.seen files.old).content name }
{
    match load_registry(alloc, files, registry) {
        Err(refusal) => {
            write_registry_refusal(err, refusal, registry);
            refusal.status()
        }
        Ok(members) => match load_query(alloc, files, query) {
            Err(refusal) => {
                write_query_refusal(err, refusal, query);
                refusal.status()
            }
            Ok(asked) => answer_members(rt, alloc, &members, asked.get(), block, wires, out, err),
        },
    }
}

/// Answers a query over the members of a registry, and writes the document with the lines behind it, or the line of the refusal.
///
/// The query is a value here, so that all that is said of it holds of the very query that a file was read as, also where files tell nothing of what they
/// contain: with `Done`, and where no member is left out, wires that count each address alone counted no fault that isn't that of an occurrence of SERVICE SILENT of this query.
pub fn answer_members<R: Threads + Wait + Sync, W: Wire + Send, O: Sink, E: Sink>(
    rt: &R,
    alloc: Global,
    members: &Registry,
    query: &Query,
    block: u32,
    wires: &mut [W],
    out: &mut O,
    err: &mut E,
) -> Status
    requires wired { (0 < length wires.old) × (length wires.old ≤ 16) }
    requires block { (0 < block) × (block ≤ 64) }
    requires spellable { IsSpellable query.now }
    ensures reported { (text : List ℕ) × IsAnswerReported (wires_seen W.tells_log W.counts_alone W.seen wires.old wires.new) members.now query.now block result text × (IsTrue E.tells_held → Gains (E.held err.old) (E.held err.new) (E.write_faults err.old) (E.write_faults err.new) text) }
    ensures written { IsTrue O.tells_held → Wrote (IsUnionDocument (map W.seen wires.old) members.now query.now) result (O.held out.old) (O.held out.new) }
    ensures done { result ≡ Status.Done → IsAnswerDone (wires_seen W.tells_log W.counts_alone W.seen wires.old wires.new) members.now query.now block (sink_written O.tells_held O.held O.write_faults out.old out.new) (sink_written E.tells_held E.held E.write_faults err.old err.new) }
    ensures endpoint_faults { IsTrue W.counts_alone → result ≡ Status.Done → CountsDownBy members.now query.now (map W.seen wires.old) (map W.seen wires.new) (sink_written E.tells_held E.held E.write_faults err.old err.new) }
    ensures cut { result ≡ Status.WriteFault → IsAnswerCut (wires_seen W.tells_log W.counts_alone W.seen wires.old wires.new) members.now query.now block (sink_written O.tells_held O.held O.write_faults out.old out.new) }
    ensures wired { AreAfter (map W.seen wires.old) (map W.seen wires.new) }
    ensures write_fault { result ≡ Status.WriteFault → IsCutShort (IsUnionDocument (map W.seen wires.old) members.now query.now) (sink_written O.tells_held O.held O.write_faults out.old out.new) (sink_written E.tells_held E.held E.write_faults err.old err.new) }
    ensures unfailed { ¬ (result ≡ Status.WriteFault) → O.write_faults out.new ≡ O.write_faults out.old }
    ensures unfailed_lines { result ≡ Status.Done → E.write_faults err.new ≡ E.write_faults err.old }
{
    let endpoints = members.endpoints();
    match outcome(rt, alloc, members, query, block, wires) {
        Ok(all) => write_outcome(alloc, endpoints, &all, out, err),
        Err(error) => {
            write_fed_error(err, &error);
            fed_status(&error)
        }
    }
}

/// What the members give for a query. They are asked in rounds, with a new cache.
pub fn outcome<R: Threads + Wait + Sync, W: Wire + Send>(
    rt: &R,
    alloc: Global,
    members: &Registry,
    query: &Query,
    block: u32,
    wires: &mut [W],
) -> Result<OutcomeInRounds, FedError>
    requires wired { (0 < length wires.old) × (length wires.old ≤ 16) }
    requires block { (0 < block) × (block ≤ 64) }
    requires spellable { IsSpellable query.now }
    ensures answered { IsAnswered (wires_seen W.tells_log W.counts_alone W.seen wires.old wires.new) members.now query.now block result }
    ensures wired { AreAfter (map W.seen wires.old) (map W.seen wires.new) }
{
    match AskCache::new(alloc) {
        Ok(mut cache) => federate(
            rt,
            alloc,
            query,
            members,
            &mut cache,
            Options { block },
            wires,
        ),
        Err(_) => Err(FedError::Memory),
    }
}

// Writes the document of an answer, and the lines behind it. Both are whole before the first byte is written.
fn write_outcome<O: Sink, E: Sink>(
    alloc: Global,
    endpoints: &[Endpoint],
    all: &OutcomeInRounds,
    out: &mut O,
    err: &mut E,
) -> Status
    ensures reported { (text : List ℕ) × IsGivenEnd (answer_lines endpoints.now all.now) result text × (IsTrue E.tells_held → Gains (E.held err.old) (E.held err.new) (E.write_faults err.old) (E.write_faults err.new) text) }
    ensures written { IsTrue O.tells_held → Wrote (λ text. text ≡ document all.now.outcome.answer) result (O.held out.old) (O.held out.new) }
    ensures done { result ≡ Status.Done → IsOutcomeWritten endpoints.now all.now (sink_written O.tells_held O.held O.write_faults out.old out.new) (sink_written E.tells_held E.held E.write_faults err.old err.new) }
    ensures write_fault { result ≡ Status.WriteFault → IsCutShort (λ text. text ≡ document all.now.outcome.answer) (sink_written O.tells_held O.held O.write_faults out.old out.new) (sink_written E.tells_held E.held E.write_faults err.old err.new) }
    ensures unfailed { ¬ (result ≡ Status.WriteFault) → O.write_faults out.new ≡ O.write_faults out.old }
    ensures unfailed_lines { result ≡ Status.Done → E.write_faults err.new ≡ E.write_faults err.old }
{
    match report_of(alloc, endpoints, all) {
        Err(_) => {
            write_no_memory(err);
            Status::NoMemory
        }
        Ok(report) => write_report(&report, out, err),
    }
}

// The document of an answer, and the lines behind it.
fn report_of(alloc: Global, endpoints: &[Endpoint], all: &OutcomeInRounds) -> Result<Report, Memory>
    ensures { IfOk result (λ report. (report.document.items ≡ document all.now.outcome.answer) × (report.lines.items ≡ answer_lines endpoints.now all.now)) }
{
    let document = write(alloc, &all.outcome.answer)?;
    let lines = lines::answer_lines(alloc, endpoints, all)?;
    Ok(Report { document, lines })
}
