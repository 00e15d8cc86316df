//! Values as texts.

use crate::fields::add_behind;
use fx_algebra::{Answer, Solution};
use fx_terms::{Graph, Name, Pattern, PatternTerm, Term, Triple, write_iri, write_term};
use std::alloc::Global;
use std::fmt::Write;

/// A term as N-Triples writes it, with `xsd:integer` and the like for the datatypes of XML Schema.
pub fn term(alloc: Global, term: &Term) -> Option<String> {
    let mut text = String::new(alloc);
    write_term(&mut text, term).ok()?;
    match text
        .as_str()
        .split_once("^^<http://www.w3.org/2001/XMLSchema#")
    {
        Some((form, name)) => {
            let name = name.strip_suffix('>').unwrap_or(name);
            format!(in alloc; "{form}^^xsd:{name}").ok()
        }
        None => Some(text),
    }
}

/// A solution as its pairs, by rising name: `x=<x:a> y="1"^^xsd:integer`.
pub fn solution(alloc: Global, solution: &Solution) -> Option<String> {
    let mut text = String::new(alloc);
    for (name, bound) in solution.pairs() {
        add_pair(alloc, &mut text, name.text(), bound)?;
    }
    Some(text)
}

fn add_pair(alloc: Global, text: &mut String, name: &str, bound: &Term) -> Option<()> {
    let (between, bound) = (if text.is_empty() { "" } else { " " }, term(alloc, bound)?);
    write!(text, "{between}{name}={bound}").ok()
}

/// Solutions, one after another.
pub fn solutions(alloc: Global, rows: &[Solution]) -> Option<String> {
    let mut text = String::new(alloc);
    for row in rows {
        let row = solution(alloc, row)?;
        add_behind(&mut text, " ; ", row.as_str())?;
    }
    Some(text)
}

/// Names, one after another.
pub fn names(alloc: Global, names: &[Name]) -> Option<String> {
    let mut text = String::new(alloc);
    for name in names {
        add_behind(&mut text, " ", name.text())?;
    }
    Some(text)
}

/// A text as it is.
pub fn word(alloc: Global, text: &str) -> Option<String> {
    String::from_str(alloc, text).ok()
}

/// `true` or `false`.
pub fn truth(alloc: Global, truth: bool) -> Option<String> {
    word(alloc, if truth { "true" } else { "false" })
}

/// Bytes as the text that they are, and those that aren't UTF-8 as `bytes FF 00`.
pub fn bytes(alloc: Global, bytes: &[u8]) -> Option<String> {
    if let Ok(text) = std::str::from_utf8(bytes) {
        return word(alloc, text);
    }
    let mut text = word(alloc, "bytes")?;
    for byte in bytes {
        write!(text, " {byte:02X}").ok()?;
    }
    Some(text)
}

/// A graph, triple after triple, as N-Triples writes it.
pub fn graph(alloc: Global, graph: &Graph) -> Option<String> {
    let mut text = String::new(alloc);
    for triple in graph.triples() {
        if !text.is_empty() {
            text.push(' ').ok()?;
        }
        push_triple(&mut text, triple)?;
    }
    Some(text)
}

fn push_triple(text: &mut String, triple: &Triple) -> Option<()> {
    write_iri(text, &triple.subject).ok()?;
    text.push(' ').ok()?;
    write_iri(text, &triple.predicate).ok()?;
    text.push(' ').ok()?;
    write_term(text, &triple.object).ok()?;
    text.push_str(" .").ok()
}

/// A triple pattern.
pub fn pattern(alloc: Global, pattern: &Pattern) -> Option<String> {
    let mut text = String::new(alloc);
    push_part(&mut text, &pattern.subject)?;
    text.push(' ').ok()?;
    push_part(&mut text, &pattern.predicate)?;
    text.push(' ').ok()?;
    push_part(&mut text, &pattern.object)?;
    Some(text)
}

fn push_part(text: &mut String, part: &PatternTerm) -> Option<()> {
    match part {
        PatternTerm::Variable(name) => {
            text.push('?').ok()?;
            text.push_str(name.text()).ok()
        }
        PatternTerm::Constant(term) => write_term(text, term).ok(),
    }
}

/// Solutions, each with a `;` behind it, so that no solutions and one of no pairs are told apart.
pub fn rows(alloc: Global, rows: &[Solution]) -> Option<String> {
    let mut text = String::new(alloc);
    for row in rows {
        let row = solution(alloc, row)?;
        write!(text, "{row};").ok()?;
    }
    Some(text)
}

/// An answer: `true`, `false`, or the names of the columns in brackets, and the rows behind them, each with a `;`.
pub fn answer(alloc: Global, answer: &Answer) -> Option<String> {
    match answer {
        Answer::Truth(truth) => format!(in alloc; "{truth}").ok(),
        Answer::Table { columns, rows } => {
            let columns = names(alloc, columns.as_slice())?;
            let rows = self::rows(alloc, rows.as_slice())?;
            format!(in alloc; "({columns}){rows}").ok()
        }
    }
}
