//! The calls of `fx_results`.

use fx_notation::{escapes, notation};
use fx_results::{ResultsError, read, write};
use std::alloc::Global;

/// What a call gives.
pub fn answer(alloc: Global, call: &str, inputs: &[&str]) -> Option<String> {
    match (call, inputs) {
        ("read", [document]) => told(alloc, escapes::bytes(alloc, document)?.as_slice()),
        ("read of nested", parts) => told(alloc, notation::nested(alloc, parts)?.as_slice()),
        ("write", [answer]) => written(alloc, answer),
        _ => None,
    }
}

// The document of the answer that a document tells, or the refusal.
fn told(alloc: Global, document: &[u8]) -> Option<String> {
    match read(alloc, document) {
        Ok(answer) => String::from_utf8(write(alloc, &answer).ok()?).ok(),
        Err(ResultsError::Memory) => None,
        Err(refusal) => format!(in alloc; "{refusal:?}").ok(),
    }
}

fn written(alloc: Global, answer: &str) -> Option<String> {
    let answer = notation::answer(alloc, answer)?;
    String::from_utf8(write(alloc, &answer).ok()?).ok()
}
