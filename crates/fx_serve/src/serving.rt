//! The command `serve`.
ghost use Rattle.std.specs.Prelude.{◌≡◌, ◌+◌, ◌++◌, ◌<◌, ◌≤◌, ℕ, List, Err, IfErr, IfOk, IsErr, IsTrue, OnErr, OnOk, Result, [], length, map};
ghost use Rattle.fx_outside.specs.Faults.{HasRisen};
ghost use Rattle.fx_outside.specs.Streams.{AppendsFront, AppendsPart};
ghost use Rattle.fx_traffic.specs.Gains.{AreAfter, seen};
ghost use Rattle.fx_gateway.specs.Connected.{link_seen};
ghost use Rattle.fx_gateway.specs.declared.connections.GateError.{GateError};
ghost use Rattle.fx_gateway.specs.declared.connections.Gated.{Gated};
ghost use Rattle.fx_local.specs.Counts.{CountsDoor, CountsOnly};
ghost use Rattle.fx_local.specs.Files.{file_read};
ghost use Rattle.fx_local.specs.Serving.{ending_line, once_more};
ghost use Rattle.fx_local.specs.Sinks.{sink_written};
ghost use Rattle.fx_serve.specs.Connections.{WasServed, asked_between, connection, gated_lines, known_of, members_of};
ghost use Rattle.fx_serve.specs.Serving.{HasServeReport, HasServingReport};
ghost use Rattle.fx_serve.specs.Steps.{GivesServed, IsNoted};

use fx_engine::Options;
use fx_gateway::{GateError, Gated, serve_connection};
use fx_lines::noted_lines;
use fx_local::reports::{write_no_memory, write_pieces, write_registry_refusal};
use fx_local::serving::{Ending, end, ending_text};
use fx_local::{Status, load_registry};
use fx_outside::{Door, DoorError, Endpoint, Files, Sink, Source, WriteFailed};
use fx_sources::{AskCache, Registry};
use fx_wire::Wire;
use itoa::Buffer;
use std::alloc::Global;
use std::sync::Wait;
use std::thread::Threads;

/// What `serve` is asked to do.
#[derive(Clone, Copy)]
pub struct Serve<'a> {
    /// The name of the registry's file.
    pub registry: &'a str,
    /// Where the door is opened, as `host:port`.
    pub address: &'a str,
    /// How many connections are served.
    pub count: u64,
    /// How many rows a request to a member asks for at most, 1 to 64.
    pub block: u32,
}

// Members that are served, and how.
#[derive(Clone, Copy)]
struct Service<'a> {
    members: &'a Registry,
    endpoints: &'a [Endpoint],
    asked: Serve<'a>,
}

// How a connection ended, and the lines of what is known beside its reply: who was left out, and what was down.
#[derive(Drop)]
struct Served {
    ending: Ending,
    lines: Vec<u8>,
}

/// Serves the members of a registry as one endpoint at an address, for so many connections one after another, each with its lines on `err`: how it ended, which members were left out for it,
/// and which occurrences of SERVICE SILENT were down.
///
/// The answers to ASKs are kept from connection to connection. The next connection is taken only where the lines of those before it are whole. Where they can't be written, a front of them is the
/// last that is written, and serving ends with `WriteFault`. A connection's lines are made before it is finished, and written behind that.
pub fn run_serve<R: Threads + Wait + Sync, F: Files, W: Wire + Send, D: Door, E: Sink>(
    rt: &R,
    alloc: Global,
    files: &mut F,
    wires: &mut [W],
    door: &mut D,
    asked: Serve,
    err: &mut E,
) -> Status
    requires wired { (0 < length wires.old) × (length wires.old ≤ 16) }
    requires block { (0 < asked.block) × (asked.block ≤ 64) }
    ensures reported { HasServeReport (file_read (F.seen files.old) (F.seen files.new) asked.entry.registry.now) (seen W.Wire wires.old wires.new)
        (D.seen door.old) (D.seen door.new) asked.entry.address.now asked.entry.count asked.entry.block result (sink_written E.tells_held E.held E.write_faults err.old err.new) }
    ensures wired { AreAfter (map W.seen wires.old) (map W.seen wires.new) }
    ensures write_fault { result ≡ Status.WriteFault → HasRisen (E.write_faults err.old) (E.write_faults err.new) }
    ensures unfailed_lines { result ≡ Status.Done → E.write_faults err.new ≡ E.write_faults err.old }
    ensures door_faults { CountsDoor result (D.seen door.old).faults (D.seen door.new).faults }
    ensures opened { (D.seen door.old).faults ≤ (D.seen door.new).faults }
    ensures read_faults { CountsOnly Status.ReadFault result (F.seen files.old).faults (F.seen files.new).faults }
    ensures kept { (name : List ℕ) → (F.seen files.old).faults name ≤ (F.seen files.new).faults name }
    ensures same { (name : List ℕ) → (F.seen files.new).content name ≡ (F.seen files.old).content name }
{
    match load_registry(alloc, files, asked.registry) {
        Err(refusal) => {
            write_registry_refusal(err, refusal, asked.registry);
            refusal.status()
        }
        Ok(members) => match AskCache::new(alloc) {
            Err(_) => {
                write_no_memory(err);
                Status::NoMemory
            }
            Ok(mut cache) => {
                let service = Service {
                    members: &members,
                    endpoints: members.endpoints(),
                    asked,
                };
                serve_members(rt, alloc, service, &mut cache, wires, door, err)
            }
        },
    }
}

// Opens the door, and serves members there.
fn serve_members<R: Threads + Wait + Sync, W: Wire + Send, D: Door, E: Sink>(
    rt: &R,
    alloc: Global,
    service: Service,
    cache: &mut AskCache,
    wires: &mut [W],
    door: &mut D,
    err: &mut E,
) -> Status
    requires wired { (0 < length wires.old) × (length wires.old ≤ 16) }
    requires block { (0 < service.asked.block) × (service.asked.block ≤ 64) }
    requires named { service.endpoints.now ≡ service.members.now }
    ensures reported { HasServingReport (members_of W.Wire service.entry.members.now service.entry.asked.block) (D.seen door.old) (D.seen door.new)
        (once_more (D.seen door.old) service.entry.asked.address.now) service.entry.asked.count
        (known_of W.Wire wires.old cache.old) (known_of W.Wire wires.new cache.new) result (sink_written E.tells_held E.held E.write_faults err.old err.new) }
    ensures write_fault { result ≡ Status.WriteFault → HasRisen (E.write_faults err.old) (E.write_faults err.new) }
    ensures unfailed_lines { result ≡ Status.Done → E.write_faults err.new ≡ E.write_faults err.old }
    ensures door_faults { CountsDoor result (D.seen door.old).faults (D.seen door.new).faults }
    ensures opened { (D.seen door.old).faults ≤ (D.seen door.new).faults }
{
    match door.start(alloc, service.asked.address) {
        Ok(()) => serve_connections(rt, alloc, service, cache, wires, door, err),
        Err(error) => end(err, error),
    }
}

// Serves so many connections at a door that is open, each with its lines.
fn serve_connections<R: Threads + Wait + Sync, W: Wire + Send, D: Door, E: Sink>(
    rt: &R,
    alloc: Global,
    service: Service,
    cache: &mut AskCache,
    wires: &mut [W],
    door: &mut D,
    err: &mut E,
) -> Status
    requires wired { (0 < length wires.old) × (length wires.old ≤ 16) }
    requires block { (0 < service.asked.block) × (service.asked.block ≤ 64) }
    requires named { service.endpoints.now ≡ service.members.now }
    ensures reported { HasServingReport (members_of W.Wire service.entry.members.now service.entry.asked.block) (D.seen door.old) (D.seen door.new)
        (D.seen door.old).started service.entry.asked.count
        (known_of W.Wire wires.old cache.old) (known_of W.Wire wires.new cache.new) result (sink_written E.tells_held E.held E.write_faults err.old err.new) }
    ensures write_fault { result ≡ Status.WriteFault → HasRisen (E.write_faults err.old) (E.write_faults err.new) }
    ensures unfailed_lines { result ≡ Status.Done → E.write_faults err.new ≡ E.write_faults err.old }
    ensures door_faults { CountsDoor result (D.seen door.old).faults (D.seen door.new).faults }
    ensures opened { (D.seen door.old).faults ≤ (D.seen door.new).faults }
{
    for number in 0..service.asked.count {
        match serve_next(rt, alloc, service, cache, wires, door) {
            Ok(served) => match write_served(err, number + 1, &served) {
                Ok(()) => {}
                Err(_) => return Status::WriteFault,
            },
            Err(error) => return end(err, error),
        }
    }
    Status::Done
}

// Serves the next connection, and ends it.
fn serve_next<R: Threads + Wait + Sync, W: Wire + Send, D: Door>(
    rt: &R,
    alloc: Global,
    service: Service,
    cache: &mut AskCache,
    wires: &mut [W],
    door: &mut D,
) -> Result<Served, DoorError>
    requires wired { (0 < length wires.old) × (length wires.old ≤ 16) }
    requires block { (0 < service.asked.block) × (service.asked.block ≤ 64) }
    requires named { service.endpoints.now ≡ service.members.now }
    ensures served { GivesServed (members_of W.Wire service.entry.members.now service.entry.asked.block) (D.seen door.old) (D.seen door.new)
        (known_of W.Wire wires.old cache.old) (known_of W.Wire wires.new cache.new) result }
    ensures started { IsTrue (D.seen door.old).tells → (D.seen door.new).started ≡ (D.seen door.old).started }
    ensures opened { (D.seen door.old).faults ≤ (D.seen door.new).faults }
    ensures counted { result ≡ Err DoorError.Failed → (D.seen door.new).faults ≡ (D.seen door.old).faults + 1 }
    ensures faultless { ¬ (result ≡ Err DoorError.Failed) → (D.seen door.new).faults ≡ (D.seen door.old).faults }
{
    let mut conn = door.accept(alloc)?;
    match serve_conn(rt, alloc, service, cache, wires, &mut conn) {
        Err(error) => Err(error),
        Ok(served) => match door.finish(alloc, conn) {
            Err(error) => Err(error),
            Ok(()) => Ok(served),
        },
    }
}

// Serves a connection that has just come in.
fn serve_conn<R: Threads + Wait + Sync, W: Wire + Send, L: Source + Sink>(
    rt: &R,
    alloc: Global,
    service: Service,
    cache: &mut AskCache,
    wires: &mut [W],
    conn: &mut L,
) -> Result<Served, DoorError>
    requires wired { (0 < length wires.old) × (length wires.old ≤ 16) }
    requires block { (0 < service.asked.block) × (service.asked.block ≤ 64) }
    requires named { service.endpoints.now ≡ service.members.now }
    ensures served { (given : Result Gated GateError) × WasServed (asked_between (members_of W.Wire service.entry.members.now service.entry.asked.block)
        (known_of W.Wire wires.old cache.old) (known_of W.Wire wires.new cache.new))
        (connection (link_seen L.Ends conn.old) (link_seen L.Ends conn.new) given (known_of W.Wire wires.new cache.new)) × IsNoted service.entry.members.now given result }
{
    let options = Options {
        block: service.asked.block,
    };
    match serve_connection(rt, alloc, service.members, cache, options, wires, conn) {
        Ok(gated) => noted(
            alloc,
            service.endpoints,
            Ending::Replied(gated.status),
            &gated,
        ),
        Err(GateError::WriteFault { gated }) => {
            noted(alloc, service.endpoints, Ending::WriteFault, &gated)
        }
        Err(GateError::ReadFault) => Ok(unread(alloc)),
        Err(GateError::Memory) => Err(DoorError::Memory),
    }
}

// A connection of which a read failed: nothing is known beside it.
fn unread(alloc: Global) -> Served
    ensures ending { result.ending ≡ Ending.ReadFault }
    ensures lines { result.lines.items ≡ [] }
{
    Served {
        ending: Ending::ReadFault,
        lines: Vec::new(alloc),
    }
}

// A connection that ended so, with the lines of what is known beside its reply.
fn noted(
    alloc: Global,
    endpoints: &[Endpoint],
    ending: Ending,
    gated: &Gated,
) -> Result<Served, DoorError>
    ensures noted { IfOk result (λ served. (served.ending ≡ ending) × (served.lines.items ≡ gated_lines endpoints.now gated.now)) }
    ensures memory { IfErr result (λ e. e ≡ DoorError.Memory) }
{
    let lines = noted_lines(
        alloc,
        endpoints,
        gated.abandoned.as_slice(),
        gated.down.as_slice(),
    )?;
    Ok(Served { ending, lines })
}

// Writes the lines of a connection.
fn write_served<E: Sink>(err: &mut E, number: u64, served: &Served) -> Result<(), WriteFailed>
    ensures whole { IsTrue E.tells_held → OnOk result (E.held err.new ≡ E.held err.old ++ (ending_line number served.now.ending ++ served.now.lines.items)) }
    ensures front { IsTrue E.tells_held → AppendsFront (E.held err.old) (E.held err.new) (ending_line number served.now.ending ++ served.now.lines.items) }
    ensures part { IsTrue E.tells_held → OnErr result (AppendsPart (E.held err.old) (E.held err.new) (ending_line number served.now.ending ++ served.now.lines.items)) }
    ensures kept { E.write_faults err.old ≤ E.write_faults err.new }
    ensures failed { IsErr result → HasRisen (E.write_faults err.old) (E.write_faults err.new) }
    ensures faultless { OnOk result (E.write_faults err.new ≡ E.write_faults err.old) }
{
    let mut number_buffer = Buffer::new();
    let mut status_buffer = Buffer::new();
    let number = number_buffer.format(number);
    let ending = ending_text(served.ending, &mut status_buffer);
    write_pieces(
        err,
        &[
            b"connection ",
            number.as_bytes(),
            b": ",
            ending.as_bytes(),
            b"\n",
            served.lines.as_slice(),
        ],
    )
}
