//! The calls of command lines: `count_rows` of `fx_commands`, over graphs in memory, and those of `fx_command_cases`.
//!
//! A graph is a field `address=triples`. The exchanges that are to fail are named by their numbers on the wire.
ghost use Rattle.std.specs.Prelude.{◌<◌, ◌≤◌, length};

use fx_command_cases::commands;
use fx_command_cases::streams::sink_of;
use fx_command_cases::wires::wire;
use fx_commands::count_rows;
use fx_commands::refusals::write_fed_error;
use fx_engine::FedError;
use fx_wire::Wire;
use std::alloc::Global;
use std::str::from_utf8;
use std::sync::Wait;
use std::thread::Threads;

/// What a call gives.
pub fn answer<R: Threads + Wait + Sync>(
    rt: &R,
    alloc: Global,
    call: &str,
    inputs: &[&str],
) -> Option<String> {
    match (call, inputs) {
        ("count_rows", [failing, fields @ ..]) => counted(rt, alloc, failing, fields),
        _ => commands::answer(alloc, call, inputs),
    }
}

// How many rows there are over one wire, or the line of the refusal.
fn counted<R: Threads + Wait + Sync>(
    rt: &R,
    alloc: Global,
    failing: &str,
    fields: &[&str],
) -> Option<String> {
    let mut wires = [wire(alloc, failing, fields)?];
    count(rt, alloc, &mut wires)
}

fn count<R: Threads + Wait + Sync, W: Wire + Send>(
    rt: &R,
    alloc: Global,
    wires: &mut [W],
) -> Option<String>
    requires { (0 < length wires.old) × (length wires.old ≤ 16) }
{
    match count_rows(rt, alloc, wires) {
        Ok(rows) => format!(in alloc; "{rows} rows").ok(),
        Err(error) => refusal(alloc, &error),
    }
}

fn refusal(alloc: Global, error: &FedError) -> Option<String> {
    let mut err = sink_of(alloc, "", "err", 4096)?;
    write_fed_error(&mut err, error);
    String::from_str(alloc, from_utf8(err.bytes()).ok()?).ok()
}
