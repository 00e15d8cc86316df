//! What is told of a run: its status and its streams, and where exchanges failed.

use crate::watched::WatchedWire;
use fx_local::Status;
use fx_notation::fields;
use std::alloc::Global;
use std::str::from_utf8;

/// The exit status of a run, and what stands on the streams where anything does.
pub fn ran_text(alloc: Global, status: &Status, out: &[u8], err: &[u8]) -> Option<String> {
    let code = status.code();
    let mut text = format!(in alloc; "status {code}").ok()?;
    push_stream(&mut text, " | out ", out)?;
    push_stream(&mut text, " | err ", err)?;
    Some(text)
}

fn push_stream(text: &mut String, name: &str, bytes: &[u8]) -> Option<()> {
    if !bytes.is_empty() {
        text.push_str(name).ok()?;
        text.push_str(from_utf8(bytes).ok()?).ok()?;
    }
    Some(())
}

/// What a run gives whose document ends behind so many bytes.
pub fn cut_short(alloc: Global, whole: &str, written: u64) -> Option<String> {
    let document = whole.strip_prefix("status 0 | out ")?;
    if written >= document.len() as u64 {
        return String::from_str(alloc, whole).ok();
    }
    let front = document.get(..written as usize)?;
    ran_text(alloc, &Status::WriteFault, front.as_bytes(), b"")
}

/// What a run gives, and behind it what it gives byte by byte where that is something else.
pub fn both_texts(alloc: Global, whole: String, cut: &str) -> Option<String> {
    if cut == whole.as_str() {
        Some(whole)
    } else {
        format!(in alloc; "{whole} and byte by byte {cut}").ok()
    }
}

/// `whole` where all is given and no exchange failed; the name of an endpoint where one exchange failed, which was with it, and the run says this and nothing
/// else; else what is given, and where exchanges failed.
pub fn end_text(alloc: Global, given: &str, whole: &str, failed: &str) -> Option<String> {
    if failed.is_empty() && given == whole {
        return String::from_str(alloc, "whole").ok();
    }
    let named = format!(in alloc; "status 5 | err member {failed} failed\n").ok()?;
    if !failed.is_empty() && given == named.as_str() {
        String::from_str(alloc, failed).ok()
    } else {
        format!(in alloc; "gives {given}, where failed: {failed}").ok()
    }
}

/// The names of the endpoints of all exchanges that failed, with blanks between.
pub fn failed_at(alloc: Global, wires: &[WatchedWire]) -> Option<String> {
    let mut text = String::new(alloc);
    for wire in wires {
        for name in wire.failed() {
            fields::add_behind(&mut text, " ", name.as_str())?;
        }
    }
    Some(text)
}
