//! The words of a command line, and the calls of `fx_words` and `fx_local` that read them and write lines.
//!
//! Words have a blank between, and an empty one is written `''`.

use crate::streams::sink_of;
use fx_local::reports::write_no_memory;
use fx_words::{Command, CommandError, read_command};
use std::alloc::Global;
use std::str::from_utf8;

/// What a call gives.
pub fn answer(alloc: Global, call: &str, inputs: &[&str]) -> Option<String> {
    match (call, inputs) {
        ("read_command", [words]) => command(alloc, words),
        ("write_no_memory", []) => no_memory(alloc),
        _ => None,
    }
}

fn command(alloc: Global, field: &str) -> Option<String> {
    let words = words_of(alloc, field)?;
    match read_command(alloc, words.as_slice()) {
        Ok(command) => command_text(alloc, command),
        Err(CommandError::Usage) => String::from_str(alloc, "Usage").ok(),
        Err(CommandError::Memory) => None,
    }
}

fn command_text(alloc: Global, command: Command<'_>) -> Option<String> {
    match command {
        Command::Local { graph, query } => {
            format!(in alloc; "Local of graph {graph} and query {query}").ok()
        }
        Command::Query {
            registry,
            query,
            workers,
            block,
        } => format!(in alloc;
            "Query of registry {registry} and query {query}, {workers} workers, blocks of {block}"
        ).ok(),
        Command::Explain { registry, query } => {
            format!(in alloc; "Explain of registry {registry} and query {query}").ok()
        }
        Command::Member {
            graph,
            address,
            count,
        } => format!(in alloc; "Member of graph {graph} at {address}, {count} times").ok(),
        Command::Serve {
            registry,
            address,
            count,
            workers,
            block,
        } => format!(in alloc;
            "Serve of registry {registry} at {address}, {count} times, {workers} workers, blocks of {block}"
        ).ok(),
        Command::Generate { size } => format!(in alloc; "Generate of size {size}").ok(),
    }
}

fn no_memory(alloc: Global) -> Option<String> {
    let mut err = sink_of(alloc, "", "err", 4096)?;
    write_no_memory(&mut err);
    String::from_str(alloc, from_utf8(err.bytes()).ok()?).ok()
}

/// The words of a field.
pub fn words_of(alloc: Global, field: &str) -> Option<Vec<String>> {
    let mut words = Vec::new(alloc);
    for word in field.split_whitespace() {
        let word = if word == "''" { "" } else { word };
        words.push(String::from_str(alloc, word).ok()?).ok()?;
    }
    Some(words)
}
