//! `fedx`: answers a SPARQL query over a file of triples, or over several endpoints as if their graphs were one, prints the plan of
//! the latter, and serves a file of triples as such an endpoint.
#![tactic(auto)]

ghost use Rattle.std.specs.Prelude.{◌<◌, IfOk, vec_len};

use fx_local::{Refusal, Status, write_refusal};
use fx_outside::{Folder, Listener, StdSink};
use fx_program::run;
use fx_wire::TcpWire;
use fx_words::CommandError;
use std::alloc::AllocError;
use std::process::ExitCode;
use std::sync::Wait;
use std::thread::Threads;
use std::{env, io};

// The most requests that may be under way at once.
const WIRES: usize = 16;

fn main(rt: HostRuntime) -> io::Result<ExitCode> {
    let ended = match words(&rt) {
        Ok(words) => run_words(&rt, &rt, words.as_slice()),
        // No command has a word that can't be read, so it is answered as no words are.
        Err(CommandError::Usage) => run_words(&rt, &rt, &[]),
        Err(CommandError::Memory) => Err(AllocError),
    };
    let status = match ended {
        Ok(status) => status,
        Err(AllocError) => no_memory(&rt),
    };
    Ok(ExitCode::from(status.code()))
}

// Runs the command over the system's files, network and streams, with threads for its workers. It fails where there is no memory for these.
fn run_words<R: Threads + Wait + Sync>(
    threads: &R,
    rt: &HostRuntime,
    words: &[String],
) -> Result<Status, AllocError> {
    let for_files = rt.clone()?;
    let for_door = rt.clone()?;
    let mut files = Folder::new(rt.alloc(), for_files);
    let mut wires = wires(rt)?;
    let mut door = Listener::new(for_door);
    let mut out = StdSink::new(rt.stdout());
    let mut err = StdSink::new(rt.stderr());
    Ok(run(
        threads,
        rt.alloc(),
        words,
        &mut files,
        wires.as_mut_slice(),
        &mut door,
        &mut out,
        &mut err,
    ))
}

// The wires that a command may use.
fn wires(rt: &HostRuntime) -> Result<Vec<TcpWire<HostRuntime>>, AllocError>
    ensures { IfOk result (λ wires. 0 < vec_len wires) }
{
    let mut wires = vec![in rt.alloc(); wire(rt)?]?;
    for _ in 1..WIRES {
        wires.push(wire(rt)?)?;
    }
    Ok(wires)
}

fn wire(rt: &HostRuntime) -> Result<TcpWire<HostRuntime>, AllocError> {
    Ok(TcpWire::new(rt.alloc(), rt.clone()?))
}

// The end of a run for whose words or wires there is no memory.
fn no_memory(rt: &HostRuntime) -> Status {
    let mut err = StdSink::new(rt.stderr());
    write_refusal(&mut err, &Refusal::Memory, "", "");
    Status::NoMemory
}

// The words behind the program's name. `Usage` comes where one isn't UTF-8.
fn words(rt: &HostRuntime) -> Result<Vec<String>, CommandError> {
    let mut words = Vec::new(rt.alloc());
    match env::args(rt) {
        Ok(all) => {
            for word in all.skip(1) {
                words.push(word)?;
            }
            Ok(words)
        }
        Err(error) => match error.kind() {
            io::ErrorKind::OutOfMemory => Err(CommandError::Memory),
            _ => Err(CommandError::Usage),
        },
    }
}
