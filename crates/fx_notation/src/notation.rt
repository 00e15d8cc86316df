//! Values that are written as SPARQL writes them, with the prefixes `e:` for `http://e/`, `x:` for `x:`, `rdf:` and `xsd:`.

use crate::escapes::bytes;
use crate::fields::repeated;
use fx_algebra::{Answer, Element, Expr, Group, Inline, Query, Solution};
use fx_solutions::inline_rows;
use fx_syntax::parse;
use fx_terms::{Boxed, Graph, Iri, Items, Name, Pattern, PatternTerm, Term, Triple};
use std::alloc::Global;

const PREFIXES: &str =
    "PREFIX e: <http://e/> PREFIX x: <x:> PREFIX rdf: <http://www.w3.org/1999/02/22-rdf-syntax-ns#> PREFIX xsd: <http://www.w3.org/2001/XMLSchema#> ";

/// A query.
pub fn query(alloc: Global, text: &str) -> Option<Boxed<Query>> {
    let text = format!(in alloc; "{PREFIXES}{text}").ok()?;
    parsed(alloc, text.as_bytes())
}

fn parsed(alloc: Global, text: &[u8]) -> Option<Boxed<Query>> {
    match parse(alloc, text) {
        Ok(query) => Boxed::new(alloc, query).ok(),
        Err(_) => None,
    }
}

/// A group, with its braces.
pub fn group(alloc: Global, text: &str) -> Option<Group> {
    let text = format!(in alloc; "ASK {text}").ok()?;
    query(alloc, text.as_str())?.get().group.copy(alloc).ok()
}

/// An element of a group.
pub fn element(alloc: Global, text: &str) -> Option<Boxed<Element>> {
    let mut group = braced(alloc, text)?;
    match group.elements.pop() {
        Some(element) => Boxed::new(alloc, element).ok(),
        None => None,
    }
}

/// An expression.
pub fn expression(alloc: Global, text: &str) -> Option<Boxed<Expr>> {
    let group = condition(alloc, text)?;
    match group.elements.as_slice() {
        [Element::Filter(expr)] => copied(alloc, expr),
        _ => None,
    }
}

// The group that has one condition.
fn condition(alloc: Global, text: &str) -> Option<Group> {
    let text = format!(in alloc; "{{ FILTER ( {text} ) }}").ok()?;
    group(alloc, text.as_str())
}

fn copied(alloc: Global, expr: &Expr) -> Option<Boxed<Expr>> {
    match expr.copy(alloc) {
        Ok(copy) => Boxed::new(alloc, copy).ok(),
        Err(_) => None,
    }
}

/// A block of solutions that are written out, as it stands behind VALUES: `( ?x ?y ) { ( 1 UNDEF ) }`.
pub fn inline(alloc: Global, text: &str) -> Option<Inline> {
    let text = format!(in alloc; "VALUES {text}").ok()?;
    let group = braced(alloc, text.as_str())?;
    match group.elements.as_slice() {
        [Element::Values(inline)] => inline.copy(alloc).ok(),
        _ => None,
    }
}

/// Solutions, as they stand behind VALUES.
pub fn solutions(alloc: Global, text: &str) -> Option<Vec<Solution>> {
    inline_rows(alloc, &inline(alloc, text)?).ok()
}

/// A term.
pub fn term(alloc: Global, text: &str) -> Option<Term> {
    let group = condition(alloc, text)?;
    match group.elements.as_slice() {
        [Element::Filter(Expr::Constant(term))] => term.copy().ok(),
        _ => None,
    }
}

/// A graph, as triple patterns without variables: `e:a e:p e:b . e:a e:q 1`.
pub fn graph(alloc: Global, text: &str) -> Option<Graph> {
    let group = braced(alloc, text)?;
    let mut triples = Vec::new(alloc);
    for element in group.elements.as_slice() {
        push_triple(&mut triples, element)?;
    }
    Graph::of(triples).ok()
}

// The group that has these elements.
fn braced(alloc: Global, text: &str) -> Option<Group> {
    let text = format!(in alloc; "{{ {text} }}").ok()?;
    group(alloc, text.as_str())
}

fn push_triple(triples: &mut Vec<Triple>, element: &Element) -> Option<()> {
    match element {
        Element::Triple(pattern) => triples.push(triple(pattern)?).ok(),
        _ => None,
    }
}

/// The triple that a pattern without variables is.
pub fn triple(pattern: &Pattern) -> Option<Triple> {
    Some(Triple {
        subject: iri(&pattern.subject)?,
        predicate: iri(&pattern.predicate)?,
        object: constant(&pattern.object)?,
    })
}

fn iri(part: &PatternTerm) -> Option<Iri> {
    match constant(part)? {
        Term::Iri(iri) => Some(iri),
        Term::Literal(_) => None,
    }
}

fn constant(part: &PatternTerm) -> Option<Term> {
    match part {
        PatternTerm::Constant(term) => term.copy().ok(),
        PatternTerm::Variable(_) => None,
    }
}

/// A triple pattern: `?s x:p ?o`.
pub fn pattern(alloc: Global, text: &str) -> Option<Boxed<Pattern>> {
    let group = braced(alloc, text)?;
    match group.elements.as_slice() {
        [Element::Triple(pattern)] => copied_pattern(alloc, pattern),
        _ => None,
    }
}

fn copied_pattern(alloc: Global, pattern: &Pattern) -> Option<Boxed<Pattern>> {
    match pattern.copy() {
        Ok(copy) => Boxed::new(alloc, copy).ok(),
        Err(_) => None,
    }
}

/// The one solution of a block that is written out.
pub fn solution(alloc: Global, text: &str) -> Option<Solution> {
    let mut rows = solutions(alloc, text)?;
    rows.pop()
}

/// Names, with blanks between.
pub fn names(alloc: Global, text: &str) -> Option<Vec<Name>> {
    let mut names = Vec::new(alloc);
    for word in text.split_whitespace() {
        names.push(Name::read(alloc, word).ok()?).ok()?;
    }
    Some(names)
}

/// Expressions, with ` ; ` between; an empty text is none.
pub fn expressions(alloc: Global, text: &str) -> Option<Items<Expr>> {
    let mut expressions = Items::new(alloc);
    if !text.is_empty() {
        for part in text.split(" ; ") {
            push_expression(alloc, &mut expressions, part)?;
        }
    }
    Some(expressions)
}

/// One expression more.
pub fn push_expression(alloc: Global, expressions: &mut Items<Expr>, text: &str) -> Option<()> {
    let expr = expression(alloc, text)?;
    expressions.push(expr.into_inner()).ok()
}

/// An answer: `true`, `false`, or a table, as its columns and rows stand behind VALUES.
pub fn answer(alloc: Global, text: &str) -> Option<Answer> {
    match text {
        "true" => Some(Answer::Truth(true)),
        "false" => Some(Answer::Truth(false)),
        _ => table(alloc, text),
    }
}

fn table(alloc: Global, text: &str) -> Option<Answer> {
    let inline = inline(alloc, text)?;
    let rows = Items::from_vec(inline_rows(alloc, &inline).ok()?);
    Some(Answer::Table {
        columns: inline.columns,
        rows,
    })
}

/// A text in which parts stand several times: a front, an opening and how often it stands, a middle, a closing that stands as often,
/// and a back.
pub fn nested(alloc: Global, parts: &[&str]) -> Option<Vec<u8>> {
    match parts {
        [front, opening, count, middle, closing, back] => {
            let openings = repeated(alloc, opening, count)?;
            let closings = repeated(alloc, closing, count)?;
            let text = format!(in alloc; "{front}{openings}{middle}{closings}{back}").ok()?;
            bytes(alloc, text.as_str())
        }
        _ => None,
    }
}

/// A query with the keys that stand behind ORDER BY; an empty text is none.
pub fn query_by(alloc: Global, keys: &str) -> Option<Boxed<Query>> {
    if keys.is_empty() {
        return query(alloc, "ASK {}");
    }
    let text = format!(in alloc; "ASK {{}} ORDER BY {keys}").ok()?;
    query(alloc, text.as_str())
}
