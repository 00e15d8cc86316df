//! The calls of `fx_syntax`, and of `fx_algebra` that look at whole queries.

use fx_algebra::is_plain;
use fx_notation::{escapes, notation};
use fx_print::print;
use fx_syntax::{SyntaxError, parse};
use std::alloc::Global;

/// What a call gives.
pub fn answer(alloc: Global, call: &str, inputs: &[&str]) -> Option<String> {
    match (call, inputs) {
        ("parse", [text]) => read(alloc, text),
        ("parse of nested", parts) => read_nested(alloc, parts),
        ("parse of both", [text, other]) => compared(alloc, text, other),
        ("is_plain", [query]) => plain(alloc, query),
        _ => None,
    }
}

fn read(alloc: Global, field: &str) -> Option<String> {
    let text = escapes::bytes(alloc, field)?;
    outcome(alloc, text.as_slice())
}

fn read_nested(alloc: Global, parts: &[&str]) -> Option<String> {
    let text = notation::nested(alloc, parts)?;
    outcome(alloc, text.as_slice())
}

// `accepted`, or why the text is no query, and where.
fn outcome(alloc: Global, text: &[u8]) -> Option<String> {
    match parse(alloc, text) {
        Ok(_) => String::from_str(alloc, "accepted").ok(),
        Err(SyntaxError::Refused { kind, place }) => {
            let name = kind.name();
            format!(in alloc; "{name} at {place}").ok()
        }
        Err(SyntaxError::Memory) => None,
    }
}

// Whether two texts are the same query.
fn compared(alloc: Global, text: &str, other: &str) -> Option<String> {
    let is_same = tree(alloc, text)? == tree(alloc, other)?;
    String::from_str(alloc, if is_same { "same" } else { "different" }).ok()
}

// The printed text of the query that a field is, which no other query has (`fx_spelling`).
fn tree(alloc: Global, field: &str) -> Option<String> {
    let text = escapes::bytes(alloc, field)?;
    match parse(alloc, text.as_slice()) {
        Ok(query) => print(alloc, &query).ok(),
        Err(_) => None,
    }
}

fn plain(alloc: Global, query: &str) -> Option<String> {
    let query = notation::query(alloc, query)?;
    let is_plain = is_plain(query.get());
    format!(in alloc; "{is_plain}").ok()
}
