//! Lines on standard error.
ghost use Rattle.std.specs.Prelude.{◌≡◌, ◌∷◌, ◌++◌, ◌≤◌, [], codes, IsTrue, IsErr, OnErr, OnOk};
ghost use Rattle.std.specs.Fmt.{decimal};
ghost use Rattle.fx_outside.specs.Faults.{HasRisen};
ghost use Rattle.fx_outside.specs.Streams.{AppendsFront, AppendsPart};
ghost use Rattle.fx_local.specs.Lines.{all_pieces, cannot_serve, Gains, graph_refused, line, no_memory, place, query_refused, registry_refused, triples_refused, turtle_refused, unknown_service, usage_line};
ghost use Rattle.fx_local.specs.LocalSteps.{refusal_line, graph_line, query_line};
ghost use Rattle.fx_local.specs.RegistryFiles.{registry_line};

use crate::refusals::{GraphFault, GraphRefusal, QueryRefusal, Refusal, RegistryRefusal};
use fx_ntriples::NtError;
use fx_outside::{Sink, WriteFailed, write_all};
use fx_sources::RegistryError;
use fx_syntax::SyntaxKind;
use fx_terms::Iri;
use fx_turtle::TurtleKind;
use itoa::Buffer;

/// Writes the usage line.
pub fn write_usage<E: Sink>(err: &mut E)
    ensures { IsTrue E.tells_held → Gains (E.held err.old) (E.held err.new) (E.write_faults err.old) (E.write_faults err.new) usage_line }
{
    write_line(
        err,
        b"usage: fedx local GRAPH QUERY | query REGISTRY QUERY [--workers N] [--block B] | explain REGISTRY QUERY | member GRAPH ADDRESS [COUNT] | generate N | serve REGISTRY ADDRESS [COUNT] [--workers N] [--block B]\n",
    );
}

/// Writes the line of a refusal, where the files have these names.
pub fn write_refusal<E: Sink>(err: &mut E, refusal: &Refusal, graph: &str, query: &str)
    ensures { IsTrue E.tells_held → Gains (E.held err.old) (E.held err.new) (E.write_faults err.old) (E.write_faults err.new) (refusal_line refusal.now graph.now query.now) }
{
    match refusal {
        Refusal::Graph(refusal) => write_graph_refusal(err, *refusal, graph),
        Refusal::Query(refusal) => write_query_refusal(err, *refusal, query),
        Refusal::UnknownService(iri) => write_unknown_service(err, iri),
        Refusal::Memory => write_line(err, b"no memory\n"),
    }
}

/// Writes the line of a SERVICE without SILENT whose IRI is no endpoint's.
pub fn write_unknown_service<E: Sink>(err: &mut E, iri: &Iri)
    ensures { IsTrue E.tells_held → Gains (E.held err.old) (E.held err.new) (E.write_faults err.old) (E.write_faults err.new) (unknown_service iri.now) }
{
    write_named(err, b"unknown service ", iri.text(), b"\n");
}

/// Writes the line of a refusal of the graph's file, where it has this name.
pub fn write_graph_refusal<E: Sink>(err: &mut E, refusal: GraphRefusal, name: &str)
    ensures { IsTrue E.tells_held → Gains (E.held err.old) (E.held err.new) (E.write_faults err.old) (E.write_faults err.new) (graph_line refusal name.now) }
{
    match refusal {
        GraphRefusal::Fault => write_named(err, b"cannot read ", name, b"\n"),
        GraphRefusal::TooLong => write_named(
            err,
            b"file ",
            name,
            b" has more than 134217728 bytes\n",
        ),
        GraphRefusal::Refused(fault) => write_graph_fault(err, fault),
        GraphRefusal::Memory => write_line(err, b"no memory\n"),
    }
}

fn write_graph_fault<E: Sink>(err: &mut E, fault: GraphFault)
    ensures { IsTrue E.tells_held → Gains (E.held err.old) (E.held err.new) (E.write_faults err.old) (E.write_faults err.new) (graph_refused fault) }
{
    match fault {
        GraphFault::Triples(error) => write_triples_error(err, error),
        GraphFault::Turtle { kind, place } => write_turtle_refused(err, kind, place),
    }
}

fn write_turtle_refused<E: Sink>(err: &mut E, kind: TurtleKind, place: u64)
    ensures { IsTrue E.tells_held → Gains (E.held err.old) (E.held err.new) (E.write_faults err.old) (E.write_faults err.new) (turtle_refused kind place) }
{
    write_refused(err, b"graph refused: ", kind.name(), b" at byte ", place);
}

fn write_triples_error<E: Sink>(err: &mut E, error: NtError)
    ensures { IsTrue E.tells_held → Gains (E.held err.old) (E.held err.new) (E.write_faults err.old) (E.write_faults err.new) (triples_refused error) }
{
    match error {
        NtError::BadUtf8 { place } => {
            write_number(err, b"graph refused: BadUtf8 at byte ", place, b"\n")
        }
        NtError::Bad { line, column } => {
            write_place(err, b"graph refused: Bad at ", line, column)
        }
        NtError::Blank { line, column } => {
            write_place(err, b"graph refused: Blank at ", line, column)
        }
        NtError::Relative { line, column } => {
            write_place(err, b"graph refused: Relative at ", line, column)
        }
        NtError::Memory => write_line(err, b"no memory\n"),
    }
}

/// Writes the line of a refusal of the query's file, where it has this name.
pub fn write_query_refusal<E: Sink>(err: &mut E, refusal: QueryRefusal, name: &str)
    ensures { IsTrue E.tells_held → Gains (E.held err.old) (E.held err.new) (E.write_faults err.old) (E.write_faults err.new) (query_line refusal name.now) }
{
    match refusal {
        QueryRefusal::Fault => write_named(err, b"cannot read ", name, b"\n"),
        QueryRefusal::TooLong => {
            write_named(err, b"file ", name, b" has more than 1048576 bytes\n")
        }
        QueryRefusal::Refused { kind, place } => write_query_refused(err, kind, place),
        QueryRefusal::Memory => write_line(err, b"no memory\n"),
    }
}

fn write_query_refused<E: Sink>(err: &mut E, kind: SyntaxKind, place: u64)
    ensures { IsTrue E.tells_held → Gains (E.held err.old) (E.held err.new) (E.write_faults err.old) (E.write_faults err.new) (query_refused kind place) }
{
    write_refused(err, b"query refused: ", kind.name(), b" at ", place);
}

// Writes what is refused, the name of the kind, and the place.
fn write_refused<E: Sink>(err: &mut E, what: &[u8], kind: &str, at: &[u8], place: u64)
    ensures { IsTrue E.tells_held → Gains (E.held err.old) (E.held err.new) (E.write_faults err.old) (E.write_faults err.new)
        (what.now ++ (kind.now ++ (at.now ++ (decimal place ++ 10 ∷ [])))) }
{
    if let Ok(()) = write_all(err, what) {
        write_kind_and_place(err, kind, at, place);
    }
}

fn write_kind_and_place<E: Sink>(err: &mut E, kind: &str, at: &[u8], place: u64)
    ensures { IsTrue E.tells_held → Gains (E.held err.old) (E.held err.new) (E.write_faults err.old) (E.write_faults err.new)
        (kind.now ++ (at.now ++ (decimal place ++ 10 ∷ []))) }
{
    if let Ok(()) = write_all(err, kind.as_bytes()) {
        write_number(err, at, place, b"\n");
    }
}

/// Writes the line of a refusal of the registry's file, where it has this name.
pub fn write_registry_refusal<E: Sink>(err: &mut E, refusal: RegistryRefusal, name: &str)
    ensures { IsTrue E.tells_held → Gains (E.held err.old) (E.held err.new) (E.write_faults err.old) (E.write_faults err.new) (registry_line refusal name.now) }
{
    match refusal {
        RegistryRefusal::Fault => write_named(err, b"cannot read ", name, b"\n"),
        RegistryRefusal::TooLong => {
            write_named(err, b"file ", name, b" has more than 1048576 bytes\n")
        }
        RegistryRefusal::Refused(error) => write_registry_error(err, error),
        RegistryRefusal::Memory => write_line(err, b"no memory\n"),
    }
}

fn write_registry_error<E: Sink>(err: &mut E, error: RegistryError)
    ensures { IsTrue E.tells_held → Gains (E.held err.old) (E.held err.new) (E.write_faults err.old) (E.write_faults err.new) (registry_refused error) }
{
    match error {
        RegistryError::Bad { line } => {
            write_number(err, b"registry refused: Bad at line ", line, b"\n")
        }
        RegistryError::TooMany { line } => {
            write_number(err, b"registry refused: TooMany at line ", line, b"\n")
        }
        RegistryError::RepeatedName { line } => {
            write_number(err, b"registry refused: RepeatedName at line ", line, b"\n")
        }
        RegistryError::RepeatedUrl { line } => {
            write_number(err, b"registry refused: RepeatedUrl at line ", line, b"\n")
        }
        RegistryError::Memory => write_line(err, b"no memory\n"),
    }
}

/// Writes the line of a door that failed.
pub fn write_cannot_serve<E: Sink>(err: &mut E)
    ensures { IsTrue E.tells_held → Gains (E.held err.old) (E.held err.new) (E.write_faults err.old) (E.write_faults err.new) cannot_serve }
{
    write_line(err, b"cannot serve\n");
}

/// Writes the line of want of memory.
pub fn write_no_memory<E: Sink>(err: &mut E)
    ensures { IsTrue E.tells_held → Gains (E.held err.old) (E.held err.new) (E.write_faults err.old) (E.write_faults err.new) no_memory }
{
    write_line(err, b"no memory\n");
}

/// Writes pieces, one behind the other. `WriteFailed` comes where a write failed, and a front of them is
/// written then, which is shorter than they are.
pub fn write_pieces<E: Sink>(err: &mut E, pieces: &[&[u8]]) -> Result<(), WriteFailed>
    ensures whole { IsTrue E.tells_held → OnOk result (E.held err.new ≡ E.held err.old ++ all_pieces pieces.now) }
    ensures front { IsTrue E.tells_held → AppendsFront (E.held err.old) (E.held err.new) (all_pieces pieces.now) }
    ensures part { IsTrue E.tells_held → OnErr result (AppendsPart (E.held err.old) (E.held err.new) (all_pieces pieces.now)) }
    ensures kept { E.write_faults err.old ≤ E.write_faults err.new }
    ensures failed { IsErr result → HasRisen (E.write_faults err.old) (E.write_faults err.new) }
    ensures faultless { OnOk result (E.write_faults err.new ≡ E.write_faults err.old) }
{
    for piece in pieces {
        write_all(err, piece)?;
    }
    Ok(())
}

fn write_place<E: Sink>(err: &mut E, before: &[u8], line: u64, column: u64)
    ensures { IsTrue E.tells_held → Gains (E.held err.old) (E.held err.new) (E.write_faults err.old) (E.write_faults err.new) (before.now ++ place line column) }
{
    if let Ok(()) = write_all(err, before) {
        write_line_and_column(err, line, column);
    }
}

fn write_line_and_column<E: Sink>(err: &mut E, line: u64, column: u64)
    ensures { IsTrue E.tells_held → Gains (E.held err.old) (E.held err.new) (E.write_faults err.old) (E.write_faults err.new) (place line column) }
{
    let mut buffer = Buffer::new();
    if let Ok(()) = write_all(err, buffer.format(line).as_bytes()) {
        write_number(err, b":", column, b"\n");
    }
}

/// Writes a number between two texts.
pub fn write_number<E: Sink>(err: &mut E, before: &[u8], number: u64, after: &[u8])
    ensures { IsTrue E.tells_held → Gains (E.held err.old) (E.held err.new) (E.write_faults err.old) (E.write_faults err.new) (before.now ++ (decimal number ++ after.now)) }
{
    let mut buffer = Buffer::new();
    write_named(err, before, buffer.format(number), after);
}

/// Writes a line, or any text. A fault of standard error leaves the status as it is, so it is not handed on.
pub fn write_line<E: Sink>(err: &mut E, line: &[u8])
    ensures { IsTrue E.tells_held → Gains (E.held err.old) (E.held err.new) (E.write_faults err.old) (E.write_faults err.new) line.now }
{
    let _ = write_all(err, line);
}

/// Writes a name between two texts.
pub fn write_named<E: Sink>(err: &mut E, before: &[u8], name: &str, after: &[u8])
    ensures { IsTrue E.tells_held → Gains (E.held err.old) (E.held err.new) (E.write_faults err.old) (E.write_faults err.new) (before.now ++ (name.now ++ after.now)) }
{
    if let Ok(()) = write_all(err, before) {
        write_name(err, name, after);
    }
}

fn write_name<E: Sink>(err: &mut E, name: &str, after: &[u8])
    ensures { IsTrue E.tells_held → Gains (E.held err.old) (E.held err.new) (E.write_faults err.old) (E.write_faults err.new) (name.now ++ after.now) }
{
    if let Ok(()) = write_all(err, name.as_bytes()) {
        write_line(err, after);
    }
}
