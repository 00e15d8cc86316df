//! The calls of `fx_terms`.

use fx_notation::{escapes, notation, shown};
use fx_terms::{
    Graph, Iri, Items, Literal, LiteralError, Memory, Name, NameError, Pattern, Term, TermError,
    is_tag, write_iri, write_term,
};
use std::alloc::Global;

/// What a call gives.
pub fn answer(alloc: Global, call: &str, inputs: &[&str]) -> Option<String> {
    match inputs {
        [field] => of_one(alloc, call, field),
        [form, behind] => of_literal(alloc, call, form, behind),
        _ => None,
    }
}

// The calls on texts, and after them those on terms and on what is made of them.
fn of_one(alloc: Global, call: &str, field: &str) -> Option<String> {
    match call {
        "Iri::read" => read_iri(alloc, field),
        "Name::read" => read_name(alloc, field),
        "Literal::plain" => plain(alloc, field),
        "is_tag" => shown::truth(alloc, is_tag(field)),
        "write_iri" => written_iri(alloc, field),
        _ => of_terms(alloc, call, field),
    }
}

fn of_terms(alloc: Global, call: &str, field: &str) -> Option<String> {
    match call {
        "Term::compare" => compare(alloc, field),
        "Graph::of" => graph_of(alloc, field),
        "Graph::copy" => copy_graph(alloc, field),
        "Pattern::copy" => copy_pattern(alloc, field),
        "write_term" => written_term(alloc, field),
        _ => None,
    }
}

// The calls on a form and what stands behind it.
fn of_literal(alloc: Global, call: &str, form: &str, behind: &str) -> Option<String> {
    match call {
        "Literal::typed" => typed(alloc, form, behind),
        "Literal::tagged" => tagged(alloc, form, behind),
        _ => None,
    }
}

fn read_iri(alloc: Global, field: &str) -> Option<String> {
    let text = escapes::text(alloc, field)?;
    match Iri::read(alloc, text.as_str()) {
        Ok(iri) => shown::word(alloc, iri.text()),
        Err(TermError::BadCharacter { place }) => {
            format!(in alloc; "BadCharacter at {place}").ok()
        }
        Err(TermError::Relative) => shown::word(alloc, "Relative"),
        Err(TermError::Memory) => None,
    }
}

fn read_name(alloc: Global, field: &str) -> Option<String> {
    let text = escapes::text(alloc, field)?;
    match Name::read(alloc, text.as_str()) {
        Ok(name) => shown::word(alloc, name.text()),
        Err(NameError::BadName) => shown::word(alloc, "BadName"),
        Err(NameError::Memory) => None,
    }
}

fn plain(alloc: Global, field: &str) -> Option<String> {
    let form = escapes::text(alloc, field)?;
    parts(alloc, &Literal::plain(alloc, form.as_str()).ok()?)
}

fn typed(alloc: Global, form: &str, datatype: &str) -> Option<String> {
    let datatype = Iri::read(alloc, datatype).ok()?;
    parts_or_error(alloc, &Literal::typed(alloc, form, &datatype))
}

fn tagged(alloc: Global, form: &str, tag: &str) -> Option<String> {
    parts_or_error(alloc, &Literal::tagged(alloc, form, tag))
}

fn parts_or_error(alloc: Global, literal: &Result<Literal, LiteralError>) -> Option<String> {
    match literal {
        Ok(literal) => parts(alloc, literal),
        Err(LiteralError::NeedsTag) => shown::word(alloc, "NeedsTag"),
        Err(LiteralError::BadTag) => shown::word(alloc, "BadTag"),
        Err(LiteralError::Memory) => None,
    }
}

fn parts(alloc: Global, literal: &Literal) -> Option<String> {
    let (form, tag) = (literal.form(), literal.tag());
    let datatype = literal.datatype().text();
    format!(in alloc; "form={form} datatype={datatype} tag={tag}").ok()
}

// Whether each term of a list is less than those behind it, greater than those before it, and equal to itself.
fn compare(alloc: Global, field: &str) -> Option<String> {
    let terms = terms(alloc, field)?;
    rising_text(alloc, terms.as_slice())
}

fn terms(alloc: Global, field: &str) -> Option<Items<Term>> {
    let mut terms = Items::new(alloc);
    for text in field.split(" ; ") {
        terms.push(notation::term(alloc, text)?).ok()?;
    }
    Some(terms)
}

fn rising_text(alloc: Global, terms: &[Term]) -> Option<String> {
    for (term, place) in terms.iter().zip(0u64..) {
        if let Some(other) = first_amiss(terms, term, place) {
            return format!(in alloc; "{place} and {other} are out of order").ok();
        }
    }
    shown::word(alloc, "rising")
}

// The place of the first term to which the term of a place doesn't stand as the places stand.
fn first_amiss(terms: &[Term], term: &Term, place: u64) -> Option<u64> {
    for (other, at) in terms.iter().zip(0u64..) {
        if term.compare(other) != place.cmp(&at) {
            return Some(at);
        }
    }
    None
}

fn graph_of(alloc: Global, text: &str) -> Option<String> {
    shown::graph(alloc, &notation::graph(alloc, text)?)
}

fn copy_graph(alloc: Global, text: &str) -> Option<String> {
    let graph = notation::graph(alloc, text)?;
    copied_graph(alloc, &graph)
}

fn copied_graph(alloc: Global, graph: &Graph) -> Option<String> {
    shown::graph(alloc, &graph.copy(alloc).ok()?)
}

fn copy_pattern(alloc: Global, text: &str) -> Option<String> {
    copied_pattern(alloc, notation::pattern(alloc, text)?.get())
}

fn copied_pattern(alloc: Global, pattern: &Pattern) -> Option<String> {
    match pattern.copy() {
        Ok(copy) => copy_text(alloc, pattern, &copy),
        Err(Memory) => None,
    }
}

fn copy_text(alloc: Global, pattern: &Pattern, copy: &Pattern) -> Option<String> {
    if *copy == *pattern {
        shown::pattern(alloc, copy)
    } else {
        shown::word(alloc, "another")
    }
}

fn written_iri(alloc: Global, text: &str) -> Option<String> {
    let iri = Iri::read(alloc, text).ok()?;
    let mut written = String::new(alloc);
    write_iri(&mut written, &iri).ok()?;
    Some(written)
}

fn written_term(alloc: Global, field: &str) -> Option<String> {
    let text = escapes::text(alloc, field)?;
    let term = notation::term(alloc, text.as_str())?;
    written(alloc, &term)
}

fn written(alloc: Global, term: &Term) -> Option<String> {
    let mut written = String::new(alloc);
    write_term(&mut written, term).ok()?;
    Some(written)
}
