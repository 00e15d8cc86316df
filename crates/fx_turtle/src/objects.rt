//! Subjects, verbs and objects.
ghost use Rattle.fx_turtle.specs.Gives.{GivesAt};
ghost use Rattle.fx_turtle.specs.Grammar as grammar;
ghost use Rattle.fx_turtle.specs.Rule as rule;

use crate::faults::Fault;
use crate::kinds::Kind;
use crate::literals::literal;
use crate::looks::{mark, refuse, sees, sees_blank, sees_name};
use crate::names::{iri_name, opt_name};
use crate::prefixes::Prefixes;
use crate::refusals::TurtleKind;
use crate::sources::Source;
use fx_terms::{Iri, RecentIris, Term};
use std::alloc::Global;

const RDF_TYPE: &str = "http://www.w3.org/1999/02/22-rdf-syntax-ns#type";

/// A subject.
pub fn subject(
    alloc: Global,
    source: &Source,
    at: usize,
    prefixes: &Prefixes,
    recent: &mut RecentIris,
) -> Result<(Iri, usize), Fault>
    ensures { GivesAt source.now at result (grammar.subject prefixes.now) }
{
    if sees_blank(source, at) {
        return Err(refuse(alloc, source, at, TurtleKind::Blank));
    }
    if sees(source, at, Kind::LeftParen) {
        return Err(refuse(alloc, source, at, TurtleKind::Unsupported));
    }
    iri_name(alloc, source, at, prefixes, recent)
}

/// An object.
pub fn object(
    alloc: Global,
    source: &Source,
    at: usize,
    prefixes: &Prefixes,
    recent: &mut RecentIris,
) -> Result<(Term, usize), Fault>
    ensures { GivesAt source.now at result (grammar.object prefixes.now) }
{
    if sees_name(source, at) {
        let (iri, next) = iri_name(alloc, source, at, prefixes, recent)?;
        return Ok((Term::Iri(iri), next));
    }
    if sees_blank(source, at) {
        return Err(refuse(alloc, source, at, TurtleKind::Blank));
    }
    if sees(source, at, Kind::LeftParen) {
        return Err(refuse(alloc, source, at, TurtleKind::Unsupported));
    }
    let (literal, next) = literal(alloc, source, at, prefixes, recent)?;
    Ok((Term::Literal(literal), next))
}

/// A verb.
pub fn verb(
    alloc: Global,
    source: &Source,
    at: usize,
    prefixes: &Prefixes,
    recent: &mut RecentIris,
) -> Result<(Iri, usize), Fault>
    ensures { GivesAt source.now at result (grammar.verb prefixes.now) }
{
    if sees(source, at, Kind::A) {
        let next = mark(alloc, source, at, Kind::A)?;
        return Ok((recent.known(alloc, RDF_TYPE)?, next));
    }
    iri_name(alloc, source, at, prefixes, recent)
}

/// A verb, where one stands next.
pub fn opt_verb(
    alloc: Global,
    source: &Source,
    at: usize,
    prefixes: &Prefixes,
    recent: &mut RecentIris,
) -> Result<(Option<Iri>, usize), Fault>
    ensures { GivesAt source.now at result (rule.opt (grammar.verb prefixes.now)) }
{
    if sees(source, at, Kind::A) {
        let next = mark(alloc, source, at, Kind::A)?;
        return Ok((Some(recent.known(alloc, RDF_TYPE)?), next));
    }
    opt_name(alloc, source, at, prefixes, recent)
}
