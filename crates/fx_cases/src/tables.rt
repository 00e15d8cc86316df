//! Tables of cases: a case a line, its fields parted by tabs. The first field names a call, those behind it are what it is given, and
//! the last one is what it has to give. Empty lines, and those that begin with `#`, are passed over.
//!
//! In a field `\t`, `\n`, `\r` and `\\` stand for a tab, for the characters that end a line, and for a backslash, and `\x` with two
//! hexadecimal digits for a byte. What is wanted is a text in which these four characters stand as such escapes, and no other.

use crate::cases::answer;
use fx_notation::escapes::field_of;
use std::alloc::Global;
use std::sync::Wait;
use std::thread::Threads;

/// What came of the cases of a table.
#[derive(Drop)]
pub struct Outcome {
    /// How many cases there are.
    pub cases: u64,
    /// A line for each case that gave something else.
    pub report: String,
}

/// Tries each case of a table of this name. Gives nothing where memory ran out.
pub fn try_table<R: Threads + Wait + Sync>(
    rt: &R,
    alloc: Global,
    table: &str,
    text: &str,
) -> Option<Outcome> {
    let mut outcome = Outcome {
        cases: 0,
        report: String::new(alloc),
    };
    let mut number = 0u64;
    for line in text.split('\n') {
        number = number.saturating_add(1);
        if !line.is_empty() && !line.starts_with('#') {
            outcome.cases = outcome.cases.saturating_add(1);
            let told = difference(rt, alloc, table, number, line)?;
            outcome.report.push_str(told.as_str()).ok()?;
        }
    }
    Some(outcome)
}

// What a case gives in the place of what is wanted, as a line; an empty text where it gives that.
fn difference<R: Threads + Wait + Sync>(
    rt: &R,
    alloc: Global,
    table: &str,
    number: u64,
    line: &str,
) -> Option<String> {
    let (call, wanted) = line.rsplit_once('\t').unwrap_or((line, ""));
    match given(rt, alloc, table, call) {
        Some(given) => told(alloc, table, number, wanted, given.as_str()),
        None => told(alloc, table, number, wanted, "(nothing)"),
    }
}

fn told(alloc: Global, table: &str, number: u64, wanted: &str, given: &str) -> Option<String> {
    if given == wanted {
        Some(String::new(alloc))
    } else {
        format!(in alloc; "{table}.tsv:{number}: wanted {wanted}\n    given {given}\n").ok()
    }
}

// What the call gives, as a field.
fn given<R: Threads + Wait + Sync>(
    rt: &R,
    alloc: Global,
    table: &str,
    line: &str,
) -> Option<String> {
    let fields: Vec<&str> = line.split('\t').collect(alloc).ok()?;
    let (call, inputs) = fields.as_slice().split_first()?;
    let text = answer(rt, alloc, table, call, inputs)?;
    field_of(alloc, text.as_str())
}
