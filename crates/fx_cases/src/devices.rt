//! Calls of `fx_program::run` over devices of which one fails. The calls of `runs` stand in their table too.
//!
//! Words, files and graphs are as in `runs`. Each wire is over all members, and the first fails at its exchange of one number.
ghost use Rattle.std.specs.Prelude.{◌<◌, length};

use crate::runs;
use crate::runs::{STEP, over_graphs, over_wires};
use fx_command_cases::ends::{end_text, failed_at};
use fx_command_cases::watched::WatchedWire;
use fx_command_cases::wires::watched_wires;
use fx_notation::fields;
use std::alloc::Global;
use std::sync::Wait;
use std::thread::Threads;

/// What a call gives.
pub fn answer<R: Threads + Wait + Sync>(
    rt: &R,
    alloc: Global,
    call: &str,
    inputs: &[&str],
) -> Option<String> {
    match (call, inputs) {
        ("run with each exchange failing", [words, count, most, fields @ ..]) => {
            with_each_failing(rt, alloc, words, count, most, fields)
        }
        ("ends with each exchange failing", [words, most, fields @ ..]) => {
            ends(rt, alloc, words, most, fields)
        }
        ("ends with and without a member", [words, most, address, fields @ ..]) => {
            ends_without(rt, alloc, words, most, address, fields)
        }
        _ => runs::answer(rt, alloc, call, inputs),
    }
}

// What a run over so many wires gives where none fails, if each run in which one exchange of the first wire is to fail, up to that of the last number, has an
// end that may be; else the end of the first that has another.
fn with_each_failing<R: Threads + Wait + Sync>(
    rt: &R,
    alloc: Global,
    words: &str,
    count: &str,
    most: &str,
    fields: &[&str],
) -> Option<String> {
    let count = count.parse::<u64>().ok()?;
    let whole = given_by(rt, alloc, words, count, fields)?;
    for number in 1..=most.parse::<u64>().ok()? {
        let end = end_at(rt, alloc, words, count, number, whole.as_str(), fields)?;
        if end.contains(' ') {
            return format!(in alloc; "at exchange {number} {end}").ok();
        }
    }
    Some(whole)
}

// The ends of the runs over one wire of which one exchange is to fail, from the first up to the last number, with blanks between.
fn ends<R: Threads + Wait + Sync>(
    rt: &R,
    alloc: Global,
    words: &str,
    most: &str,
    fields: &[&str],
) -> Option<String> {
    let whole = given_by(rt, alloc, words, 1, fields)?;
    let mut text = String::new(alloc);
    for number in 1..=most.parse::<u64>().ok()? {
        let end = end_at(rt, alloc, words, 1, number, whole.as_str(), fields)?;
        fields::add_behind(&mut text, " ", end.as_str())?;
    }
    Some(text)
}

// What a run gives that leaves out the member at an address, since the first exchange with it fails; and behind it the ends of the runs over one wire of which
// one exchange is to fail, from the first up to the last number, where `left` is that of each that gives the same.
fn ends_without<R: Threads + Wait + Sync>(
    rt: &R,
    alloc: Global,
    words: &str,
    most: &str,
    address: &str,
    fields: &[&str],
) -> Option<String> {
    let failing = format!(in alloc; "{address}=1").ok()?;
    let without = over_graphs(rt, alloc, words, failing.as_str(), STEP, fields)?;
    let left = format!(in alloc; "gives {without}, where failed:").ok()?;
    let whole = given_by(rt, alloc, words, 1, fields)?;
    let mut text = format!(in alloc; "{without} |").ok()?;
    for number in 1..=most.parse::<u64>().ok()? {
        let end = end_at(rt, alloc, words, 1, number, whole.as_str(), fields)?;
        fields::add_behind(&mut text, " ", told(end.as_str(), left.as_str()))?;
    }
    Some(text)
}

// The end of a run, in one word where it begins as that which leaves out the member.
fn told<'a>(end: &'a str, left: &str) -> &'a str {
    if end.starts_with(left) { "left" } else { end }
}

// What a run over so many wires gives where none fails.
fn given_by<R: Threads + Wait + Sync>(
    rt: &R,
    alloc: Global,
    words: &str,
    count: u64,
    fields: &[&str],
) -> Option<String> {
    let mut wires = watched_wires(alloc, count, 0, fields)?;
    if wires.is_empty() {
        return None;
    }
    over_wires(rt, alloc, words, "", STEP, fields, wires.as_mut_slice())
}

// How a run ends whose first wire fails at its exchange of this number.
fn end_at<R: Threads + Wait + Sync>(
    rt: &R,
    alloc: Global,
    words: &str,
    count: u64,
    number: u64,
    whole: &str,
    fields: &[&str],
) -> Option<String> {
    let mut wires = watched_wires(alloc, count, number, fields)?;
    if wires.is_empty() {
        return None;
    }
    end_over(rt, alloc, words, whole, fields, wires.as_mut_slice())
}

fn end_over<R: Threads + Wait + Sync>(
    rt: &R,
    alloc: Global,
    words: &str,
    whole: &str,
    fields: &[&str],
    wires: &mut [WatchedWire],
) -> Option<String>
    requires { 0 < length wires.old }
{
    let given = over_wires(rt, alloc, words, "", STEP, fields, wires)?;
    let failed = failed_at(alloc, wires)?;
    end_text(alloc, given.as_str(), whole, failed.as_str())
}
