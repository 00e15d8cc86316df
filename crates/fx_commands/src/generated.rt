//! The command `generate`.
ghost use Rattle.std.specs.Prelude.{◌≡◌, ◌≤◌, ◌++◌, ◌∷◌, [], All, IfOk, IsTrue, List, OnOk, ℕ, length, string_bytes};
ghost use Rattle.std.specs.List.{flat_map, sum_by};
ghost use Rattle.fx_terms.specs.declared.triples.Triple.{Triple as TripleParts};
ghost use Rattle.fx_algebra.specs.Graphs.{union};
ghost use Rattle.fx_commands.specs.Counting.{generated_rows};
ghost use Rattle.fx_commands.specs.FedRefusals.{IsGivenEnd};
ghost use Rattle.fx_commands.specs.Generator as spec;
ghost use Rattle.fx_commands.specs.GeneratorSteps.{IsOver, at_addresses, graphs_of};
ghost use Rattle.fx_local.specs.Lines.{Gains};
ghost use Rattle.fx_local.specs.Sinks.{IsCutOff, Wrote, sink_written};

use crate::counting::count_rows;
use crate::generator::{members, push_number};
use fx_local::Status;
use fx_local::reports::write_no_memory;
use fx_member::GraphWire;
use fx_outside::{Sink, write_all};
use fx_terms::{Graph, Iri, Memory, Triple};
use std::alloc::Global;
use std::sync::Wait;
use std::thread::Threads;

// How many wires the members are asked over.
const WIRES: u64 = 4;

/// Makes three members of so many persons in memory, asks them over four wires in memory for the rows of a query, and writes four lines on `out`: how many
/// members there are, how many triples their union has, how many they hold together, and how many rows the query has. No other wire is used.
pub fn run_generate<R: Threads + Wait + Sync, O: Sink, E: Sink>(
    rt: &R,
    alloc: Global,
    size: u32,
    out: &mut O,
    err: &mut E,
) -> Status
    requires { (1 ≤ size) × (size ≤ 10000) }
    ensures reported { (text : List ℕ) × IsGivenEnd [] result text × (IsTrue E.tells_held → Gains (E.held err.old) (E.held err.new) (E.write_faults err.old) (E.write_faults err.new) text) }
    ensures written { IsTrue O.tells_held → Wrote (λ text. text ≡ spec.summary size) result (O.held out.old) (O.held out.new) }
    ensures write_fault { result ≡ Status.WriteFault → IsCutOff (sink_written O.tells_held O.held O.write_faults out.old out.new) (sink_written E.tells_held E.held E.write_faults err.old err.new) }
    ensures unfailed { ¬ (result ≡ Status.WriteFault) → O.write_faults out.new ≡ O.write_faults out.old }
    ensures unfailed_lines { result ≡ Status.Done → E.write_faults err.new ≡ E.write_faults err.old }
{
    match summary(rt, alloc, size) {
        Err(_) => {
            write_no_memory(err);
            Status::NoMemory
        }
        Ok(text) => match write_all(out, text.as_bytes()) {
            Ok(()) => Status::Done,
            Err(_) => Status::WriteFault,
        },
    }
}

// The four lines.
fn summary<R: Threads + Wait + Sync>(rt: &R, alloc: Global, size: u32) -> Result<String, Memory>
    requires { (1 ≤ size) × (size ≤ 10000) }
    ensures { IfOk result (λ text. string_bytes text ≡ spec.summary size) }
{
    let members = members(alloc, size)?;
    let (held, triples) = counts(alloc, members.as_slice())?;
    let rows = rows(rt, alloc, members.as_slice())?;
    text_of(alloc, triples, held, rows)
}

fn text_of(alloc: Global, triples: u64, held: u64, rows: u64) -> Result<String, Memory>
    ensures { IfOk result (λ text. string_bytes text ≡ spec.lines_of 3 triples held rows) }
{
    let mut text = String::new(alloc);
    push_line(&mut text, "members", 3)?;
    push_line(&mut text, "triples", triples)?;
    push_line(&mut text, "held", held)?;
    push_line(&mut text, "rows", rows)?;
    Ok(text)
}

fn push_line(text: &mut String, word: &str, number: u64) -> Result<(), Memory>
    ensures { OnOk result (string_bytes text.new ≡ string_bytes text.old ++ spec.counted_line word.now number) }
{
    text.push_str(word)?;
    text.push_str(" ")?;
    push_number(text, number)?;
    text.push_str("\n")?;
    Ok(())
}

// How many triples the members hold together, and how many their union has.
fn counts(alloc: Global, members: &[(Iri, Graph)]) -> Result<(u64, u64), Memory>
    ensures { IfOk result (λ counts. (counts.0 ≡ sum_by (λ (graph : List TripleParts). length graph) (graphs_of members.now)) × (counts.1 ≡ length (union (graphs_of members.now)))) }
{
    let all = all_triples(alloc, members)?;
    let held = all.len() as u64;
    let united = Graph::of(all)?;
    Ok((held, united.triples().len() as u64))
}

// All that the members hold, one behind the other.
fn all_triples(alloc: Global, members: &[(Iri, Graph)]) -> Result<Vec<Triple>, Memory>
    ensures { IfOk result (λ all. all.items ≡ flat_map (λ (graph : List TripleParts). graph) (graphs_of members.now)) }
{
    let mut all = Vec::new(alloc);
    for member in members {
        push_triples(&mut all, member.1.triples())?;
    }
    Ok(all)
}

fn push_triples(all: &mut Vec<Triple>, triples: &[Triple]) -> Result<(), Memory>
    ensures { OnOk result (all.new.items ≡ all.old.items ++ triples.now) }
{
    for triple in triples {
        all.push(triple.copy()?)?;
    }
    Ok(())
}

// How many rows the query has over the members. They are asked over wires in memory, of which none fails, so what is refused is want of memory.
fn rows<R: Threads + Wait + Sync>(
    rt: &R,
    alloc: Global,
    members: &[(Iri, Graph)],
) -> Result<u64, Memory>
    ensures { IfOk result (λ rows. (first second third : List TripleParts) → members.now ≡ at_addresses first second third → rows ≡ length (generated_rows (union (first ∷ second ∷ third ∷ [])))) }
{
    let mut wires = wires(alloc, members)?;
    match count_rows(rt, alloc, wires.as_mut_slice()) {
        Ok(rows) => Ok(rows),
        Err(_) => Err(Memory),
    }
}

fn wires(alloc: Global, members: &[(Iri, Graph)]) -> Result<Vec<GraphWire>, Memory>
    ensures many { IfOk result (λ wires. length wires.items ≡ 4) }
    ensures over { IfOk result (λ wires. All (IsOver members.now) wires.items) }
{
    let mut wires = Vec::new(alloc);
    for _number in 0..WIRES {
        wires.push(wire(alloc, members)?)?;
    }
    Ok(wires)
}

fn wire(alloc: Global, members: &[(Iri, Graph)]) -> Result<GraphWire, Memory>
    ensures { IfOk result (IsOver members.now) }
{
    GraphWire::new(alloc, copy_members(alloc, members)?)
}

fn copy_members(alloc: Global, members: &[(Iri, Graph)]) -> Result<Vec<(Iri, Graph)>, Memory>
    ensures { IfOk result (λ copies. copies.items ≡ members.now) }
{
    let mut copies = Vec::with_capacity(alloc, members.len())?;
    for member in members {
        copies.push((member.0.copy()?, member.1.copy(alloc)?))?;
    }
    Ok(copies)
}
