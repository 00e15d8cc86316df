//! The command `local`.
ghost use Rattle.std.specs.Prelude.{◌≡◌, ◌≤◌, ◌++◌, ℕ, List, IfOk, IsTrue, OnOk};
ghost use Rattle.fx_algebra.specs.Answers.{answer as answer_of, no_graphs};
ghost use Rattle.fx_algebra.specs.Occurrences.{services as services_of};
ghost use Rattle.fx_results.specs.Documents.{document as document_of};
ghost use Rattle.fx_local.specs.Counts.{CountsLoads, CountsOnly};
ghost use Rattle.fx_local.specs.Files.{IsQueryThat, file_read};
ghost use Rattle.fx_local.specs.Lines.{Gains, silent_unknown};
ghost use Rattle.fx_local.specs.Local.{HasLines, IsAnswer, IsReported, IsWritten};
ghost use Rattle.fx_local.specs.LocalSteps.{GivesAnswer, GivesDocument, GivesReport};
ghost use Rattle.fx_local.specs.RefusalStatuses.{status_of};
ghost use Rattle.fx_local.specs.Services as spec;
ghost use Rattle.fx_local.specs.Sinks.{IsCutShort, sink_written};
ghost use Rattle.std.specs.Option.{option_copied};

use crate::documents::{Report, write_report};
use crate::loading::{load_query, load_store};
use crate::refusals::Refusal;
use crate::reports::write_refusal;
use crate::statuses::Status;
use fx_algebra::{Query, services};
use fx_evaluation::{MemberError, answer};
use fx_outside::{Files, Sink};
use fx_results::write;
use fx_store::Store;
use fx_terms::{Iri, Memory};
use std::alloc::Global;

/// Answers the query of the one file over the graph of the other, and writes the document on `out`, with a line on `err` for each SERVICE, or the line of the
/// refusal on `err`. The graph's file is read first.
pub fn run_local<F: Files, O: Sink, E: Sink>(
    alloc: Global,
    files: &mut F,
    graph: &str,
    query: &str,
    out: &mut O,
    err: &mut E,
) -> Status
    ensures reported { (text : List ℕ) × IsReported (file_read (F.seen files.old) (F.seen files.new) graph.now) (file_read (F.seen files.old) (F.seen files.new) query.now) result text × (IsTrue E.tells_held → Gains (E.held err.old) (E.held err.new) (E.write_faults err.old) (E.write_faults err.new) text) }
    ensures written { IsTrue O.tells_held → IsWritten (file_read (F.seen files.old) (F.seen files.new) graph.now) (file_read (F.seen files.old) (F.seen files.new) query.now) result (O.held out.old) (O.held out.new) }
    ensures write_fault { result ≡ Status.WriteFault → IsCutShort (IsAnswer (file_read (F.seen files.old) (F.seen files.new) graph.now) (file_read (F.seen files.old) (F.seen files.new) query.now)) (sink_written O.tells_held O.held O.write_faults out.old out.new) (sink_written E.tells_held E.held E.write_faults err.old err.new) }
    ensures unfailed { ¬ (result ≡ Status.WriteFault) → O.write_faults out.new ≡ O.write_faults out.old }
    ensures unfailed_lines { result ≡ Status.Done → E.write_faults err.new ≡ E.write_faults err.old }
    ensures lines { result ≡ Status.Done → IsTrue E.tells_held → (lines : List ℕ) × IsQueryThat (file_read (F.seen files.old) (F.seen files.new) query.now) (HasLines lines) × (E.held err.new ≡ E.held err.old ++ lines) }
    ensures read_faults { CountsOnly Status.ReadFault result (F.seen files.old).faults (F.seen files.new).faults }
    ensures kept { (name : List ℕ) → (F.seen files.old).faults name ≤ (F.seen files.new).faults name }
    ensures same { (name : List ℕ) → (F.seen files.new).content name ≡ (F.seen files.old).content name }
{
    match local(alloc, files, graph, query) {
        Ok(report) => write_report(&report, out, err),
        Err(refusal) => {
            write_refusal(err, &refusal, graph, query);
            refusal.status()
        }
    }
}

// The document of the answer that the one file's query has over the graph of the other, with a line for each SERVICE. The
// graph's file is read first. No endpoint is registered here, so each SERVICE without SILENT is refused, and each silent one
// is the one empty solution.
fn local<F: Files>(
    alloc: Global,
    files: &mut F,
    graph: &str,
    query: &str,
) -> Result<Report, Refusal>
    ensures outcome { GivesAnswer (file_read (F.seen files.old) (F.seen files.new) graph.now) (file_read (F.seen files.old) (F.seen files.new) query.now) result }
    ensures counted { CountsLoads status_of (F.seen files.old).faults (F.seen files.new).faults result }
    ensures kept { (other : List ℕ) → (F.seen files.old).faults other ≤ (F.seen files.new).faults other }
    ensures same { (other : List ℕ) → (F.seen files.new).content other ≡ (F.seen files.old).content other }
{
    match load_store(alloc, files, graph) {
        Err(refusal) => Err(Refusal::Graph(refusal)),
        Ok(store) => answer_over(alloc, files, &store, query),
    }
}

fn answer_over<F: Files>(
    alloc: Global,
    files: &mut F,
    store: &Store,
    query: &str,
) -> Result<Report, Refusal>
    ensures outcome { GivesDocument store.now (file_read (F.seen files.old) (F.seen files.new) query.now) result }
    ensures counted { CountsLoads status_of (F.seen files.old).faults (F.seen files.new).faults result }
    ensures kept { (other : List ℕ) → (F.seen files.old).faults other ≤ (F.seen files.new).faults other }
    ensures same { (other : List ℕ) → (F.seen files.new).content other ≡ (F.seen files.old).content other }
{
    match load_query(alloc, files, query) {
        Err(refusal) => Err(Refusal::Query(refusal)),
        Ok(query) => report_over(alloc, store, query.get()),
    }
}

// The document of a query's answer over a store's graph, and the lines behind it.
fn report_over(alloc: Global, store: &Store, query: &Query) -> Result<Report, Refusal>
    ensures { GivesReport store.now query.now result }
{
    let occurrences = services(alloc, query)?;
    if let Some(iri) = first_plain(occurrences.as_slice()) {
        return Err(Refusal::UnknownService(iri.copy()?));
    }
    let document = document(alloc, store, query, occurrences.as_slice())?;
    let lines = silent_lines(alloc, occurrences.as_slice())?;
    Ok(Report { document, lines })
}

// The document of a query's answer over a store's graph, where all its occurrences of SERVICE are down.
fn document(
    alloc: Global,
    store: &Store,
    query: &Query,
    occurrences: &[(Iri, bool)],
) -> Result<Vec<u8>, Memory>
    requires { occurrences.now ≡ services_of query.now }
    ensures { IfOk result (λ text. text.items ≡ document_of (answer_of query.now store.now no_graphs (spec.all_numbers occurrences.now))) }
{
    let down = numbers(alloc, occurrences)?;
    match answer(alloc, store, query, down.as_slice()) {
        Ok(answer) => write(alloc, &answer),
        Err(MemberError::ServiceHere { place: _ }) => unreachable!(),
        Err(MemberError::Memory) => Err(Memory),
    }
}

// The IRI of the first SERVICE without SILENT.
fn first_plain(occurrences: &[(Iri, bool)]) -> Option<&Iri>
    ensures { option_copied result ≡ spec.first_plain occurrences.now }
{
    for (iri, silent) in occurrences {
        if !*silent {
            return Some(iri);
        }
    }
    None
}

// The numbers of all occurrences.
fn numbers(alloc: Global, occurrences: &[(Iri, bool)]) -> Result<Vec<u64>, Memory>
    ensures { IfOk result (λ numbers. numbers.items ≡ spec.all_numbers occurrences.now) }
{
    let mut numbers = Vec::with_capacity(alloc, occurrences.len())?;
    for (at, _occurrence) in occurrences.iter().enumerate() {
        numbers.push(at as u64)?;
    }
    Ok(numbers)
}

// A line for each occurrence.
fn silent_lines(alloc: Global, occurrences: &[(Iri, bool)]) -> Result<Vec<u8>, Memory>
    ensures { IfOk result (λ lines. lines.items ≡ spec.silent_lines occurrences.now) }
{
    let mut lines = Vec::new(alloc);
    for (iri, _silent) in occurrences {
        push_silent(&mut lines, iri)?;
    }
    Ok(lines)
}

fn push_silent(lines: &mut Vec<u8>, iri: &Iri) -> Result<(), Memory>
    ensures { OnOk result (lines.new.items ≡ lines.old.items ++ silent_unknown iri.now) }
{
    lines.extend_from_slice(b"silent ")?;
    lines.extend_from_slice(iri.text().as_bytes())?;
    lines.extend_from_slice(b": unknown endpoint\n")?;
    Ok(())
}
