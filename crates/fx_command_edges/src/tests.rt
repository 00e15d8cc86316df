//! A command over sockets. How it ends is compared in a function beside each test, which answers nothing where the system has no socket for it.
ghost use Rattle.std.specs.Prelude.{◌<◌, length};

use fx_outside::{MemoryDoor, MemoryFiles, MemorySink};
use fx_program::run;
use fx_wire::{TcpWire, Wire};
use std::alloc::Global;
use std::io::{Read, Write};
use std::net::{Ipv4Addr, SocketAddr, TcpListener};
use std::sync::Wait;
use std::thread::Threads;
use std::time::Duration;
use std::{io, thread};

#[test]
fn a_query_over_an_endpoint_that_is_silent_ends_and_names_it(rt: HostRuntime) {
    assert_eq!(rt; ends_over_silence(&rt, &rt), Some(true));
}

#[test]
fn a_reply_of_one_byte_above_its_limit_is_too_long(rt: HostRuntime) {
    assert_eq!(rt; ends_over_length(&rt, &rt), Some(true));
}

// Whether a query over an endpoint that takes connections, and never answers, ends with its line.
fn ends_over_silence<R: Threads + Wait + Sync>(threads: &R, rt: &HostRuntime) -> Option<bool> {
    let silent = TcpListener::bind(rt, SocketAddr::from((Ipv4Addr::LOCALHOST, 0))).ok()?;
    let port = silent.local_addr().ok()?.port();
    let (long, short) = (Duration::from_secs(10), Duration::from_millis(300));
    let wire = TcpWire::with_patience(rt.alloc(), *rt, long, short);
    let ended = query_over(threads, rt.alloc(), port, wire)?;
    drop(silent);
    Some(is_end(&ended, 5, b"member Amsterdam failed\n"))
}

// Whether one over an endpoint that answers with a byte too much does.
fn ends_over_length<R: Threads + Wait + Sync>(threads: &R, rt: &HostRuntime) -> Option<bool> {
    let listener = TcpListener::bind(rt, SocketAddr::from((Ipv4Addr::LOCALHOST, 0))).ok()?;
    let port = listener.local_addr().ok()?.port();
    // (the other side closes the connection before all is taken)
    let peer = thread::spawn(threads, move || answer_at_length(&listener).is_ok()).ok()?;
    let ended = query_over(threads, rt.alloc(), port, TcpWire::new(rt.alloc(), *rt))?;
    peer.join(threads);
    Some(is_end(&ended, 6, b"bad reply from Amsterdam: TooLong\n"))
}

// Takes one connection and its request, and writes 67,108,865 bytes.
fn answer_at_length(listener: &TcpListener) -> io::Result<()> {
    let (mut stream, _) = listener.accept()?;
    stream.read(&mut [0u8; 65536])?;
    for _ in 0..1024 {
        stream.write_all(&[b'a'; 65536])?;
    }
    stream.write_all(b"a")
}

// How `query` over one endpoint at a port ends.
fn query_over<R: Threads + Wait + Sync>(
    rt: &R,
    alloc: Global,
    port: u16,
    wire: TcpWire<HostRuntime>,
) -> Option<Ended> {
    let registry = format!(in alloc; "Amsterdam http://127.0.0.1:{port}/sparql\n").ok()?;
    let mut files = files(alloc, registry.as_str(), "SELECT * WHERE { ?s ?p ?o }")?;
    run_words(rt, alloc, &[], &mut files, &mut [wire])
}

/// How a command ended: the code of its status, and what it wrote.
#[derive(Drop)]
pub(crate) struct Ended {
    pub code: u8,
    out: MemorySink,
    err: MemorySink,
}

// Whether it ended with this code and this line, and wrote nothing else.
fn is_end(ended: &Ended, code: u8, line: &[u8]) -> bool {
    ended.code == code && ended.err.bytes() == line && ended.out.bytes().is_empty()
}

// Runs `query` with the registry and the query of these files, and further words behind.
pub(crate) fn run_words<R: Threads + Wait + Sync, W: Wire + Send>(
    rt: &R,
    alloc: Global,
    further: &[&str],
    files: &mut MemoryFiles,
    wires: &mut [W],
) -> Option<Ended>
    requires { 0 < length wires.old }
{
    let mut words = words(alloc, &["query", "members.txt", "all.rq"])?;
    push_words(alloc, &mut words, further)?;
    run_into(rt, alloc, words.as_slice(), files, wires)
}

fn run_into<R: Threads + Wait + Sync, W: Wire + Send>(
    rt: &R,
    alloc: Global,
    words: &[String],
    files: &mut MemoryFiles,
    wires: &mut [W],
) -> Option<Ended>
    requires { 0 < length wires.old }
{
    let mut out = MemorySink::new(alloc, 1000, 1000, Vec::new(alloc)).ok()?;
    let mut err = MemorySink::new(alloc, 100, 100, Vec::new(alloc)).ok()?;
    let code = code_of(rt, alloc, words, files, wires, &mut out, &mut err)?;
    Some(Ended { code, out, err })
}

fn code_of<R: Threads + Wait + Sync, W: Wire + Send>(
    rt: &R,
    alloc: Global,
    words: &[String],
    files: &mut MemoryFiles,
    wires: &mut [W],
    out: &mut MemorySink,
    err: &mut MemorySink,
) -> Option<u8>
    requires { 0 < length wires.old }
{
    let mut door = closed_door(alloc)?;
    Some(run(rt, alloc, words, files, wires, &mut door, out, err).code())
}

fn words(alloc: Global, all: &[&str]) -> Option<Vec<String>> {
    let mut words = Vec::new(alloc);
    push_words(alloc, &mut words, all)?;
    Some(words)
}

fn push_words(alloc: Global, words: &mut Vec<String>, all: &[&str]) -> Option<()> {
    for word in all {
        words.push(String::from_str(alloc, word).ok()?).ok()?;
    }
    Some(())
}

// The files of a command.
pub(crate) fn files(alloc: Global, registry: &str, query: &str) -> Option<MemoryFiles> {
    let mut files = Vec::new(alloc);
    push_file(alloc, &mut files, "members.txt", registry)?;
    push_file(alloc, &mut files, "all.rq", query)?;
    MemoryFiles::new(alloc, files, Vec::new(alloc)).ok()
}

fn push_file(
    alloc: Global,
    files: &mut Vec<(String, Vec<u8>)>,
    name: &str,
    content: &str,
) -> Option<()> {
    let name = String::from_str(alloc, name).ok()?;
    let content = Vec::from_slice(alloc, content.as_bytes()).ok()?;
    files.push((name, content)).ok()
}

// A door at which nobody comes in.
fn closed_door(alloc: Global) -> Option<MemoryDoor> {
    let (inputs, fails) = (Vec::new(alloc), Vec::new(alloc));
    MemoryDoor::new(alloc, inputs, 0, 1, fails, Vec::new(alloc), Vec::new(alloc)).ok()
}
