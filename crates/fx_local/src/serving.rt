//! The command `member`.
ghost use Rattle.std.specs.Prelude.{◌≡◌, ◌+◌, ◌++◌, ◌≤◌, ℕ, List, [], Err, IfErr, IfOk, IsErr, IsTrue, OnErr, OnOk};
ghost use Rattle.fx_outside.specs.Doors.{output_of};
ghost use Rattle.fx_outside.specs.Faults.{HasRisen};
ghost use Rattle.fx_outside.specs.Streams.{AppendsFront, AppendsPart};
ghost use Rattle.fx_local.specs.Counts.{CountsDoor, CountsOnly};
ghost use Rattle.fx_local.specs.Files.{file_read};
ghost use Rattle.fx_local.specs.Lines.{Gains};
ghost use Rattle.fx_http.specs.Requests.{TakesOfRequest};
ghost use Rattle.fx_local.specs.Serving.{ending_line, ending_text, HasMemberReport, HasServingReport, IsEnded, once_more};
ghost use Rattle.fx_local.specs.Sinks.{sink_written};
ghost use Rattle.fx_local.specs.ServingSteps.{end_line, end_status, GivesEnding};

use crate::loading::load_store;
use crate::reports::{write_cannot_serve, write_graph_refusal, write_no_memory, write_pieces};
use crate::statuses::Status;
use fx_member::{ServeError, serve_one};
use fx_outside::{Door, DoorError, Files, Sink, Source, WriteFailed};
use fx_store::Store;
use itoa::Buffer;
use std::alloc::Global;

/// How a connection ended.
#[derive(Clone, Copy)]
pub enum Ending {
    /// With a whole reply of this status.
    Replied(u16),
    /// A read failed, and nothing was written.
    ReadFault,
    /// A write failed, and a front of the reply was written.
    WriteFault,
}

/// Serves the graph of a file at an address, for so many connections one after another, each with a line on `err`.
///
/// The next connection is taken only where the lines of those before it are whole. Where one can't be written, a front of it is the
/// last that is written, and serving ends with `WriteFault`.
pub fn run_member<F: Files, D: Door, E: Sink>(
    alloc: Global,
    files: &mut F,
    door: &mut D,
    graph: &str,
    address: &str,
    count: u64,
    err: &mut E,
) -> Status
    ensures reported { HasMemberReport (file_read (F.seen files.old) (F.seen files.new) graph.now) (D.seen door.old) (D.seen door.new) address.now count result (sink_written E.tells_held E.held E.write_faults err.old err.new) }
    ensures write_fault { result ≡ Status.WriteFault → HasRisen (E.write_faults err.old) (E.write_faults err.new) }
    ensures unfailed_lines { result ≡ Status.Done → E.write_faults err.new ≡ E.write_faults err.old }
    ensures door_faults { CountsDoor result (D.seen door.old).faults (D.seen door.new).faults }
    ensures opened { (D.seen door.old).faults ≤ (D.seen door.new).faults }
    ensures read_faults { CountsOnly Status.ReadFault result (F.seen files.old).faults (F.seen files.new).faults }
    ensures kept { (name : List ℕ) → (F.seen files.old).faults name ≤ (F.seen files.new).faults name }
    ensures same { (name : List ℕ) → (F.seen files.new).content name ≡ (F.seen files.old).content name }
{
    match load_store(alloc, files, graph) {
        Err(refusal) => {
            write_graph_refusal(err, refusal, graph);
            refusal.status()
        }
        Ok(store) => serve_store(alloc, &store, door, address, count, err),
    }
}

// Serves a store's graph at an address, for so many connections.
fn serve_store<D: Door, E: Sink>(
    alloc: Global,
    store: &Store,
    door: &mut D,
    address: &str,
    count: u64,
    err: &mut E,
) -> Status
    ensures reported { HasServingReport (D.seen door.old) (D.seen door.new) (once_more (D.seen door.old) address.now) count store.now result
        (sink_written E.tells_held E.held E.write_faults err.old err.new) }
    ensures write_fault { result ≡ Status.WriteFault → HasRisen (E.write_faults err.old) (E.write_faults err.new) }
    ensures unfailed_lines { result ≡ Status.Done → E.write_faults err.new ≡ E.write_faults err.old }
    ensures door_faults { CountsDoor result (D.seen door.old).faults (D.seen door.new).faults }
    ensures opened { (D.seen door.old).faults ≤ (D.seen door.new).faults }
{
    match door.start(alloc, address) {
        Ok(()) => serve(alloc, store, door, count, err),
        Err(error) => end(err, error),
    }
}

// Serves so many connections at a door that is open, each with a line.
fn serve<D: Door, E: Sink>(
    alloc: Global,
    store: &Store,
    door: &mut D,
    count: u64,
    err: &mut E,
) -> Status
    ensures reported { HasServingReport (D.seen door.old) (D.seen door.new) (D.seen door.old).started count store.now result
        (sink_written E.tells_held E.held E.write_faults err.old err.new) }
    ensures write_fault { result ≡ Status.WriteFault → HasRisen (E.write_faults err.old) (E.write_faults err.new) }
    ensures unfailed_lines { result ≡ Status.Done → E.write_faults err.new ≡ E.write_faults err.old }
    ensures door_faults { CountsDoor result (D.seen door.old).faults (D.seen door.new).faults }
    ensures opened { (D.seen door.old).faults ≤ (D.seen door.new).faults }
{
    for number in 0..count {
        match serve_next(alloc, store, door) {
            Ok(ending) => match write_ending(err, number + 1, ending) {
                Ok(()) => {}
                Err(_) => return Status::WriteFault,
            },
            Err(error) => return end(err, error),
        }
    }
    Status::Done
}

// Serves the next connection, and ends it.
fn serve_next<D: Door>(alloc: Global, store: &Store, door: &mut D) -> Result<Ending, DoorError>
    ensures ended { GivesEnding store.now (D.seen door.old) (D.seen door.new) result }
    ensures started { IsTrue (D.seen door.old).tells → (D.seen door.new).started ≡ (D.seen door.old).started }
    ensures opened { (D.seen door.old).faults ≤ (D.seen door.new).faults }
    ensures counted { result ≡ Err DoorError.Failed → (D.seen door.new).faults ≡ (D.seen door.old).faults + 1 }
    ensures faultless { ¬ (result ≡ Err DoorError.Failed) → (D.seen door.new).faults ≡ (D.seen door.old).faults }
{
    let mut conn = door.accept(alloc)?;
    match serve_conn(alloc, store, &mut conn) {
        Err(error) => Err(error),
        Ok(ending) => match door.finish(alloc, conn) {
            Err(error) => Err(error),
            Ok(()) => Ok(ending),
        },
    }
}

// Serves a connection that has just come in.
fn serve_conn<L: Source + Sink>(
    alloc: Global,
    store: &Store,
    conn: &mut L,
) -> Result<Ending, DoorError>
    ensures ended { IsTrue L.tells_left → IsTrue L.tells_held → L.held conn.old ≡ [] → L.read_faults conn.old ≡ 0 → L.write_faults conn.old ≡ 0 → IfOk result (IsEnded store.now (L.left conn.old) (output_of (L.held conn.new) (L.left conn.new) (L.read_faults conn.new) (L.write_faults conn.new))) }
    ensures within { IsTrue L.tells_left → TakesOfRequest (L.left conn.old) (L.left conn.new) }
    ensures memory { IfErr result (λ e. e ≡ DoorError.Memory) }
    ensures nothing { IsTrue L.tells_held → IfErr result (λ _. L.held conn.new ≡ L.held conn.old) }
{
    match serve_one(alloc, store, conn) {
        Ok(served) => Ok(Ending::Replied(served.status)),
        Err(ServeError::ReadFault) => Ok(Ending::ReadFault),
        Err(ServeError::WriteFault) => Ok(Ending::WriteFault),
        Err(ServeError::Memory) => Err(DoorError::Memory),
    }
}

/// Writes why serving ended, and gives its status.
pub fn end<E: Sink>(err: &mut E, error: DoorError) -> Status
    ensures status { result ≡ end_status error }
    ensures line { IsTrue E.tells_held → Gains (E.held err.old) (E.held err.new) (E.write_faults err.old) (E.write_faults err.new) (end_line error) }
{
    match error {
        DoorError::Failed => {
            write_cannot_serve(err);
            Status::DoorFault
        }
        DoorError::Memory => {
            write_no_memory(err);
            Status::NoMemory
        }
    }
}

// Writes the line of a connection.
fn write_ending<E: Sink>(err: &mut E, number: u64, ending: Ending) -> Result<(), WriteFailed>
    ensures whole { IsTrue E.tells_held → OnOk result (E.held err.new ≡ E.held err.old ++ ending_line number ending) }
    ensures front { IsTrue E.tells_held → AppendsFront (E.held err.old) (E.held err.new) (ending_line number ending) }
    ensures part { IsTrue E.tells_held → OnErr result (AppendsPart (E.held err.old) (E.held err.new) (ending_line number ending)) }
    ensures kept { E.write_faults err.old ≤ E.write_faults err.new }
    ensures failed { IsErr result → HasRisen (E.write_faults err.old) (E.write_faults err.new) }
    ensures faultless { OnOk result (E.write_faults err.new ≡ E.write_faults err.old) }
{
    let mut number_buffer = Buffer::new();
    let mut status_buffer = Buffer::new();
    let number = number_buffer.format(number);
    let ending = ending_text(ending, &mut status_buffer);
    write_pieces(
        err,
        &[
            b"connection ",
            number.as_bytes(),
            b": ",
            ending.as_bytes(),
            b"\n",
        ],
    )
}

/// How a connection ended, in words. A status is written to the buffer.
pub fn ending_text(ending: Ending, buffer: &mut Buffer) -> &str
    ensures { result.now ≡ ending_text ending }
{
    match ending {
        Ending::Replied(status) => buffer.format(status),
        Ending::ReadFault => "read fault",
        Ending::WriteFault => "write fault",
    }
}
