//! The command `explain`.
ghost use Rattle.std.specs.Prelude.{◌≡◌, ◌<◌, ◌≤◌, All, IfOk, IsTrue, List, ℕ, length, map};
ghost use Rattle.fx_grammar.specs.Accepted.{IsSpellable};
ghost use Rattle.fx_plan.specs.Explained.{HasMembers, explained};
ghost use Rattle.fx_traffic.specs.Gains.{AreAfter, wires_seen};
ghost use Rattle.fx_local.specs.Counts.{CountsOnly};
ghost use Rattle.fx_commands.specs.Explain.{CountsLeft, IsExplainCut, IsExplainDone, IsExplainReported, IsExplainWritten, IsExplanation, IsPlanText, IsPlanWritten};
ghost use Rattle.fx_commands.specs.FedRefusals.{IsGivenEnd};
ghost use Rattle.fx_local.specs.Files.{file_read};
ghost use Rattle.fx_local.specs.Lines.{Gains};
ghost use Rattle.fx_lines.specs.MemberLines.{plan_lines};
ghost use Rattle.fx_commands.specs.MemberSteps.{IsLaidOut, IsLayoutCut, IsLayoutDone, IsLayoutReported};
ghost use Rattle.fx_local.specs.Sinks.{IsCutShort, Wrote, sink_written};

use crate::refusals::{fed_status, write_fed_error};
use fx_algebra::Query;
use fx_engine::{FedError, PlanInRounds, plan_parts};
use fx_lines::left_lines;
use fx_local::reports::{write_no_memory, write_query_refusal, write_registry_refusal};
use fx_local::{Report, Status, load_query, load_registry, write_report};
use fx_outside::{Endpoint, Files, Sink};
use fx_plan::explain;
use fx_sources::{AskCache, Registry};
use fx_terms::Memory;
use fx_wire::Wire;
use std::alloc::Global;
use std::sync::Wait;
use std::thread::Threads;

/// Prints the plan of the query of a file over the members of the registry of a file on `out`, or the line of the refusal on `err`.
/// The registry's file is read first. A SERVICE without SILENT has to name the address of a member; the first that doesn't is
/// refused, and then nothing is asked. Else each member is asked for which triple patterns it has anything, and nothing more. A member that the registry marks as
/// optional is left out where this fails at it, with a line on `err`.
pub fn run_explain<R: Threads + Wait + Sync, F: Files, W: Wire + Send, O: Sink, E: Sink>(
    rt: &R,
    alloc: Global,
    files: &mut F,
    wires: &mut [W],
    registry: &str,
    query: &str,
    out: &mut O,
    err: &mut E,
) -> Status
    requires wired { (0 < length wires.old) × (length wires.old ≤ 16) }
    ensures reported { (text : List ℕ) × IsExplainReported (wires_seen W.tells_log W.counts_alone W.seen wires.old wires.new) (file_read (F.seen files.old) (F.seen files.new) registry.now) (file_read (F.seen files.old) (F.seen files.new) query.now) result text × (IsTrue E.tells_held → Gains (E.held err.old) (E.held err.new) (E.write_faults err.old) (E.write_faults err.new) text) }
    ensures written { IsTrue O.tells_held → IsExplainWritten (map W.seen wires.old) (file_read (F.seen files.old) (F.seen files.new) registry.now) (file_read (F.seen files.old) (F.seen files.new) query.now) result (O.held out.old) (O.held out.new) }
    ensures done { result ≡ Status.Done → IsExplainDone (wires_seen W.tells_log W.counts_alone W.seen wires.old wires.new) (file_read (F.seen files.old) (F.seen files.new) registry.now) (file_read (F.seen files.old) (F.seen files.new) query.now) (sink_written O.tells_held O.held O.write_faults out.old out.new) (sink_written E.tells_held E.held E.write_faults err.old err.new) }
    ensures endpoint_faults { IsTrue W.counts_alone → result ≡ Status.Done → CountsLeft (file_read (F.seen files.old) (F.seen files.new) registry.now) (map W.seen wires.old) (map W.seen wires.new) (sink_written E.tells_held E.held E.write_faults err.old err.new) }
    ensures wired { AreAfter (map W.seen wires.old) (map W.seen wires.new) }
    ensures cut { result ≡ Status.WriteFault → IsExplainCut (wires_seen W.tells_log W.counts_alone W.seen wires.old wires.new) (file_read (F.seen files.old) (F.seen files.new) registry.now) (file_read (F.seen files.old) (F.seen files.new) query.now) (sink_written O.tells_held O.held O.write_faults out.old out.new) }
    ensures write_fault { result ≡ Status.WriteFault → IsCutShort (IsExplanation (map W.seen wires.old) (file_read (F.seen files.old) (F.seen files.new) registry.now) (file_read (F.seen files.old) (F.seen files.new) query.now)) (sink_written O.tells_held O.held O.write_faults out.old out.new) (sink_written E.tells_held E.held E.write_faults err.old err.new) }
    ensures unfailed { ¬ (result ≡ Status.WriteFault) → O.write_faults out.new ≡ O.write_faults out.old }
    ensures unfailed_lines { result ≡ Status.Done → E.write_faults err.new ≡ E.write_faults err.old }
    ensures read_faults { CountsOnly Status.ReadFault result (F.seen files.old).faults (F.seen files.new).faults }
    ensures kept { (name : List ℕ) → (F.seen files.old).faults name ≤ (F.seen files.new).faults name }
    ensures same { (name : List ℕ) → (F.seen files.new).content name ≡ (F.seen files.old).content name }
{
    match load_registry(alloc, files, registry) {
        Err(refusal) => {
            write_registry_refusal(err, refusal, registry);
            refusal.status()
        }
        Ok(members) => match load_query(alloc, files, query) {
            Err(refusal) => {
                write_query_refusal(err, refusal, query);
                refusal.status()
            }
            Ok(asked) => explain_members(rt, alloc, &members, asked.get(), wires, out, err),
        },
    }
}

// Asks the members, and prints the plan with the lines behind it, or the line of the refusal.
fn explain_members<R: Threads + Wait + Sync, W: Wire + Send, O: Sink, E: Sink>(
    rt: &R,
    alloc: Global,
    members: &Registry,
    query: &Query,
    wires: &mut [W],
    out: &mut O,
    err: &mut E,
) -> Status
    requires wired { (0 < length wires.old) × (length wires.old ≤ 16) }
    requires spellable { IsSpellable query.now }
    ensures reported { (text : List ℕ) × IsLayoutReported (wires_seen W.tells_log W.counts_alone W.seen wires.old wires.new) members.now query.now result text × (IsTrue E.tells_held → Gains (E.held err.old) (E.held err.new) (E.write_faults err.old) (E.write_faults err.new) text) }
    ensures written { IsTrue O.tells_held → Wrote (IsPlanText (map W.seen wires.old) members.now query.now) result (O.held out.old) (O.held out.new) }
    ensures done { result ≡ Status.Done → IsLayoutDone (wires_seen W.tells_log W.counts_alone W.seen wires.old wires.new) members.now query.now (sink_written O.tells_held O.held O.write_faults out.old out.new) (sink_written E.tells_held E.held E.write_faults err.old err.new) }
    ensures wired { AreAfter (map W.seen wires.old) (map W.seen wires.new) }
    ensures cut { result ≡ Status.WriteFault → IsLayoutCut (wires_seen W.tells_log W.counts_alone W.seen wires.old wires.new) members.now query.now (sink_written O.tells_held O.held O.write_faults out.old out.new) }
    ensures write_fault { result ≡ Status.WriteFault → IsCutShort (IsPlanText (map W.seen wires.old) members.now query.now) (sink_written O.tells_held O.held O.write_faults out.old out.new) (sink_written E.tells_held E.held E.write_faults err.old err.new) }
    ensures unfailed { ¬ (result ≡ Status.WriteFault) → O.write_faults out.new ≡ O.write_faults out.old }
    ensures unfailed_lines { result ≡ Status.Done → E.write_faults err.new ≡ E.write_faults err.old }
{
    let endpoints = members.endpoints();
    match plan(rt, alloc, members, query, wires) {
        Ok(plan) => write_plan(alloc, endpoints, &plan, out, err),
        Err(error) => {
            write_fed_error(err, &error);
            fed_status(&error)
        }
    }
}

// The plan of a query by what the members have. They are asked with a new cache.
fn plan<R: Threads + Wait + Sync, W: Wire + Send>(
    rt: &R,
    alloc: Global,
    members: &Registry,
    query: &Query,
    wires: &mut [W],
) -> Result<PlanInRounds, FedError>
    requires wired { (0 < length wires.old) × (length wires.old ≤ 16) }
    requires spellable { IsSpellable query.now }
    ensures planned { IsLaidOut (wires_seen W.tells_log W.counts_alone W.seen wires.old wires.new) members.now query.now result }
    ensures within { IfOk result (λ plan. All (HasMembers (length members.now)) plan.parts.items) }
    ensures wired { AreAfter (map W.seen wires.old) (map W.seen wires.new) }
{
    match AskCache::new(alloc) {
        Ok(mut cache) => plan_parts(rt, alloc, query, members, &mut cache, wires),
        Err(_) => Err(FedError::Memory),
    }
}

// Writes the text of a plan, and the lines behind it. Both are whole before the first byte is written.
fn write_plan<O: Sink, E: Sink>(
    alloc: Global,
    endpoints: &[Endpoint],
    plan: &PlanInRounds,
    out: &mut O,
    err: &mut E,
) -> Status
    requires { All (HasMembers (length endpoints.now)) plan.now.parts.items }
    ensures reported { (text : List ℕ) × IsGivenEnd (plan_lines endpoints.now plan.now) result text × (IsTrue E.tells_held → Gains (E.held err.old) (E.held err.new) (E.write_faults err.old) (E.write_faults err.new) text) }
    ensures written { IsTrue O.tells_held → Wrote (λ text. text ≡ explained plan.now.parts.items endpoints.now) result (O.held out.old) (O.held out.new) }
    ensures done { result ≡ Status.Done → IsPlanWritten endpoints.now plan.now (sink_written O.tells_held O.held O.write_faults out.old out.new) (sink_written E.tells_held E.held E.write_faults err.old err.new) }
    ensures write_fault { result ≡ Status.WriteFault → IsCutShort (λ text. text ≡ explained plan.now.parts.items endpoints.now) (sink_written O.tells_held O.held O.write_faults out.old out.new) (sink_written E.tells_held E.held E.write_faults err.old err.new) }
    ensures unfailed { ¬ (result ≡ Status.WriteFault) → O.write_faults out.new ≡ O.write_faults out.old }
    ensures unfailed_lines { result ≡ Status.Done → E.write_faults err.new ≡ E.write_faults err.old }
{
    match report_of(alloc, endpoints, plan) {
        Err(_) => {
            write_no_memory(err);
            Status::NoMemory
        }
        Ok(report) => write_report(&report, out, err),
    }
}

// The text of a plan, and the lines behind it.
fn report_of(alloc: Global, endpoints: &[Endpoint], plan: &PlanInRounds) -> Result<Report, Memory>
    requires { All (HasMembers (length endpoints.now)) plan.now.parts.items }
    ensures { IfOk result (λ report. (report.document.items ≡ explained plan.now.parts.items endpoints.now) × (report.lines.items ≡ plan_lines endpoints.now plan.now)) }
{
    let text = explain(alloc, plan.parts.as_slice(), endpoints)?;
    let lines = left_lines(alloc, endpoints, plan.abandoned.as_slice())?;
    Ok(Report {
        document: text.into_bytes(),
        lines,
    })
}
