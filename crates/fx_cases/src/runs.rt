//! Calls of `fx_program::run` over files, streams and wires in memory.
//!
//! Words, files, streams and wires are as `fx_command_cases` makes them of fields. Where the log of the wire is told, it has the port and
//! the text of each exchange that was answered.
ghost use Rattle.std.specs.Prelude.{◌<◌, length};

use fx_command_cases::commands::words_of;
use fx_command_cases::doors::closed_door;
use fx_command_cases::ends::{cut_short, ran_text};
use fx_command_cases::files::{contents, files_of, long_contents, with_blanks};
use fx_command_cases::streams::sink_of;
use fx_command_cases::wires::{fault_wire, graphs, push_log, replies};
use fx_member::GraphWire;
use fx_outside::{MemoryDoor, MemoryFiles, MemorySink};
use fx_program::run;
use fx_terms::Iri;
use fx_wire::{ScriptWire, Wire};
use std::alloc::Global;
use std::sync::Wait;
use std::thread::Threads;

/// How many bytes one write of a stream takes, where no other number is given.
pub const STEP: u64 = 4096;

/// What a call gives.
pub fn answer<R: Threads + Wait + Sync>(
    rt: &R,
    alloc: Global,
    call: &str,
    inputs: &[&str],
) -> Option<String> {
    match (call, inputs) {
        ("run", [words, files @ ..]) => over_replies(rt, alloc, words, "", STEP, files),
        ("run over replies", [words, fields @ ..]) => over_replies(
            rt, alloc, words, "", STEP, fields,
        ),
        ("run with failing calls", [words, failing, step, files @ ..]) => {
            over_replies(rt, alloc, words, failing, step.parse::<u64>().ok()?, files)
        }
        ("run with each write failing", [words, step, most, files @ ..]) => {
            with_each_write_failing(rt, alloc, words, step, most, files)
        }
        ("run over replies with the log", [words, fields @ ..]) => {
            over_replies_with_log(rt, alloc, words, fields)
        }
        _ => over_others(rt, alloc, call, inputs),
    }
}

// What a call gives over members that answer by their graphs, or over long files.
fn over_others<R: Threads + Wait + Sync>(
    rt: &R,
    alloc: Global,
    call: &str,
    inputs: &[&str],
) -> Option<String> {
    match (call, inputs) {
        ("run over graphs", [words, failing, fields @ ..]) => over_graphs(
            rt, alloc, words, failing, STEP, fields,
        ),
        ("run over graphs by steps", [words, failing, step, fields @ ..]) => over_graphs(
            rt,
            alloc,
            words,
            failing,
            step.parse::<u64>().ok()?,
            fields,
        ),
        ("run over graphs by wires", [words, count, fields @ ..]) => {
            over_graphs_by_wires(rt, alloc, words, count, fields)
        }
        ("run over graphs with the log", [words, fields @ ..]) => {
            over_graphs_with_log(rt, alloc, words, fields)
        }
        _ => over_long(rt, alloc, call, inputs),
    }
}

fn over_long<R: Threads + Wait + Sync>(
    rt: &R,
    alloc: Global,
    call: &str,
    inputs: &[&str],
) -> Option<String> {
    match (call, inputs) {
        ("run over blanks", [words, name, count, files @ ..]) => {
            over_blanks(rt, alloc, words, name, count, "", STEP, files)
        }
        ("run over blanks with failing calls", [words, name, count, failing, step, files @ ..]) => {
            over_blanks(
                rt,
                alloc,
                words,
                name,
                count,
                failing,
                step.parse::<u64>().ok()?,
                files,
            )
        }
        ("run over long files", [words, count, fields @ ..]) => {
            over_long_files(rt, alloc, words, count, fields)
        }
        _ => None,
    }
}

fn over_replies<R: Threads + Wait + Sync>(
    rt: &R,
    alloc: Global,
    words: &str,
    failing: &str,
    step: u64,
    fields: &[&str],
) -> Option<String> {
    let mut wires = [ScriptWire::new(alloc, replies(alloc, fields, "")?).ok()?];
    over_wires(rt, alloc, words, failing, step, fields, &mut wires)
}

/// The same, where the members answer by their graphs.
pub fn over_graphs<R: Threads + Wait + Sync>(
    rt: &R,
    alloc: Global,
    words: &str,
    failing: &str,
    step: u64,
    fields: &[&str],
) -> Option<String> {
    let mut wires = [fault_wire(alloc, failing, fields)?];
    over_wires(rt, alloc, words, failing, step, fields, &mut wires)
}

// The same over so many wires, each over all members.
fn over_graphs_by_wires<R: Threads + Wait + Sync>(
    rt: &R,
    alloc: Global,
    words: &str,
    count: &str,
    fields: &[&str],
) -> Option<String> {
    let mut wires = Vec::new(alloc);
    for _ in 0..count.parse::<u64>().ok()? {
        wires.push(fault_wire(alloc, "", fields)?).ok()?;
    }
    if wires.is_empty() {
        return None;
    }
    over_wires(rt, alloc, words, "", STEP, fields, wires.as_mut_slice())
}

// The same over one wire, where no exchange fails, with the log behind it.
fn over_graphs_with_log<R: Threads + Wait + Sync>(
    rt: &R,
    alloc: Global,
    words: &str,
    fields: &[&str],
) -> Option<String> {
    let mut wires = [GraphWire::new(alloc, graphs(alloc, fields)?).ok()?];
    let mut text = over_wires(rt, alloc, words, "", STEP, fields, &mut wires)?;
    push_log(&mut text, wires[0].log())?;
    Some(text)
}

fn over_replies_with_log<R: Threads + Wait + Sync>(
    rt: &R,
    alloc: Global,
    words: &str,
    fields: &[&str],
) -> Option<String> {
    let mut wires = [ScriptWire::new(alloc, replies(alloc, fields, "")?).ok()?];
    let mut text = over_wires(rt, alloc, words, "", STEP, fields, &mut wires)?;
    push_log(&mut text, wires[0].log())?;
    Some(text)
}

/// What a run gives over files and wires, with writes to the streams of so many bytes.
pub fn over_wires<R: Threads + Wait + Sync, W: Wire + Send>(
    rt: &R,
    alloc: Global,
    words: &str,
    failing: &str,
    step: u64,
    fields: &[&str],
    wires: &mut [W],
) -> Option<String>
    requires { 0 < length wires.old }
{
    let mut files = files_of(alloc, failing, contents(alloc, fields)?)?;
    ran(rt, alloc, words, failing, step, &mut files, wires)
}

// Where one more file is so many blanks.
fn over_blanks<R: Threads + Wait + Sync>(
    rt: &R,
    alloc: Global,
    words: &str,
    name: &str,
    count: &str,
    failing: &str,
    step: u64,
    fields: &[&str],
) -> Option<String> {
    let mut files = files_of(alloc, failing, with_blanks(alloc, name, count, fields)?)?;
    by_replies(rt, alloc, words, failing, step, &mut files, Vec::new(alloc))
}

// Where `{long}` stands once at most in each file and in each reply, for so many letters.
fn over_long_files<R: Threads + Wait + Sync>(
    rt: &R,
    alloc: Global,
    words: &str,
    count: &str,
    fields: &[&str],
) -> Option<String> {
    let mut files = files_of(alloc, "", long_contents(alloc, count, fields)?)?;
    by_replies(
        rt,
        alloc,
        words,
        "",
        STEP,
        &mut files,
        replies(alloc, fields, count)?,
    )
}

// Over one wire with these replies.
fn by_replies<R: Threads + Wait + Sync>(
    rt: &R,
    alloc: Global,
    words: &str,
    failing: &str,
    step: u64,
    files: &mut MemoryFiles,
    replies: Vec<(Iri, Vec<u8>)>,
) -> Option<String> {
    let mut wires = [ScriptWire::new(alloc, replies).ok()?];
    ran(rt, alloc, words, failing, step, files, &mut wires)
}

// What a run gives, where each run of which one write fails, up to so many, has a fault and a front of its document; else what the
// first one of another kind gives.
fn with_each_write_failing<R: Threads + Wait + Sync>(
    rt: &R,
    alloc: Global,
    words: &str,
    step: &str,
    most: &str,
    fields: &[&str],
) -> Option<String> {
    let step = step.parse::<u64>().ok()?;
    let whole = over_replies(rt, alloc, words, "", step, fields)?;
    for call in 0..most.parse::<u64>().ok()? {
        let wanted = cut_short(alloc, whole.as_str(), call.saturating_mul(step))?;
        let number = call.saturating_add(1);
        let amiss = amiss_at(rt, alloc, words, number, wanted.as_str(), step, fields)?;
        if !amiss.is_empty() {
            return Some(amiss);
        }
    }
    Some(whole)
}

// What a run gives whose write of this number fails, with the number; an empty text where it gives what is wanted.
fn amiss_at<R: Threads + Wait + Sync>(
    rt: &R,
    alloc: Global,
    words: &str,
    number: u64,
    wanted: &str,
    step: u64,
    fields: &[&str],
) -> Option<String> {
    let given = with_write_failing(rt, alloc, words, number, step, fields)?;
    if given.as_str() == wanted {
        Some(String::new(alloc))
    } else {
        format!(in alloc; "at write {number} {given}").ok()
    }
}

fn with_write_failing<R: Threads + Wait + Sync>(
    rt: &R,
    alloc: Global,
    words: &str,
    number: u64,
    step: u64,
    fields: &[&str],
) -> Option<String> {
    let failing = format!(in alloc; "out={number}").ok()?;
    over_replies(rt, alloc, words, failing.as_str(), step, fields)
}

// Runs words, with writes to the streams of so many bytes, and with nobody at the door.
fn ran<R: Threads + Wait + Sync, W: Wire + Send>(
    rt: &R,
    alloc: Global,
    words: &str,
    failing: &str,
    step: u64,
    files: &mut MemoryFiles,
    wires: &mut [W],
) -> Option<String>
    requires { 0 < length wires.old }
{
    let words = words_of(alloc, words)?;
    ran_by(rt, alloc, words.as_slice(), failing, step, files, wires)
}

fn ran_by<R: Threads + Wait + Sync, W: Wire + Send>(
    rt: &R,
    alloc: Global,
    words: &[String],
    failing: &str,
    step: u64,
    files: &mut MemoryFiles,
    wires: &mut [W],
) -> Option<String>
    requires { 0 < length wires.old }
{
    let mut door = closed_door(alloc)?;
    ran_at(rt, alloc, words, failing, step, files, wires, &mut door)
}

/// What a run gives over files, wires and a door, with writes to the streams of so many bytes.
pub fn ran_at<R: Threads + Wait + Sync, W: Wire + Send>(
    rt: &R,
    alloc: Global,
    words: &[String],
    failing: &str,
    step: u64,
    files: &mut MemoryFiles,
    wires: &mut [W],
    door: &mut MemoryDoor,
) -> Option<String>
    requires { 0 < length wires.old }
{
    let mut out = sink_of(alloc, failing, "out", step)?;
    let mut err = sink_of(alloc, failing, "err", step)?;
    ran_into(rt, alloc, words, files, wires, door, &mut out, &mut err)
}

fn ran_into<R: Threads + Wait + Sync, W: Wire + Send>(
    rt: &R,
    alloc: Global,
    words: &[String],
    files: &mut MemoryFiles,
    wires: &mut [W],
    door: &mut MemoryDoor,
    out: &mut MemorySink,
    err: &mut MemorySink,
) -> Option<String>
    requires { 0 < length wires.old }
{
    let status = run(rt, alloc, words, files, wires, door, out, err);
    ran_text(alloc, &status, out.bytes(), err.bytes())
}
