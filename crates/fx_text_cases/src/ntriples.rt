//! The calls of `fx_ntriples`.

use fx_notation::{escapes, notation, shown};
use fx_ntriples::{NtError, print_graph, read_graph};
use fx_terms::Graph;
use std::alloc::Global;

/// What a call gives.
pub fn answer(alloc: Global, call: &str, inputs: &[&str]) -> Option<String> {
    match inputs {
        [field] => of_one(alloc, call, field),
        _ => None,
    }
}

fn of_one(alloc: Global, call: &str, field: &str) -> Option<String> {
    match call {
        "read_graph" => read(alloc, field),
        "print_graph" => printed(alloc, field),
        "read_graph of print_graph" => read_back(alloc, field),
        _ => None,
    }
}

// The graph of a document, as it is printed again.
fn read(alloc: Global, field: &str) -> Option<String> {
    let bytes = escapes::bytes(alloc, field)?;
    match read_graph(alloc, bytes.as_slice()) {
        Ok(graph) => print_graph(alloc, &graph).ok(),
        Err(NtError::Bad { line, column }) => place(alloc, "Bad", line, column),
        Err(NtError::Blank { line, column }) => place(alloc, "Blank", line, column),
        Err(NtError::Relative { line, column }) => place(alloc, "Relative", line, column),
        Err(NtError::BadUtf8 { place }) => format!(in alloc; "BadUtf8 at {place}").ok(),
        Err(NtError::Memory) => None,
    }
}

fn place(alloc: Global, name: &str, line: u64, column: u64) -> Option<String> {
    format!(in alloc; "{name} at {line}:{column}").ok()
}

fn printed(alloc: Global, field: &str) -> Option<String> {
    let text = escapes::text(alloc, field)?;
    print_graph(alloc, &notation::graph(alloc, text.as_str())?).ok()
}

// How many triples a graph has that is the same when it is read back.
fn read_back(alloc: Global, field: &str) -> Option<String> {
    let text = escapes::text(alloc, field)?;
    let graph = notation::graph(alloc, text.as_str())?;
    same_triples(alloc, &graph)
}

fn same_triples(alloc: Global, graph: &Graph) -> Option<String> {
    let text = print_graph(alloc, graph).ok()?;
    let again = read_graph(alloc, text.as_str().as_bytes()).ok()?;
    if again.triples() != graph.triples() {
        return shown::word(alloc, "another");
    }
    let count = again.triples().len();
    format!(in alloc; "{count} triples").ok()
}
