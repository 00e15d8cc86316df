//! The triples of a subject.
ghost use Rattle.fx_turtle.specs.Gives.{Adds, triple_of, object_triples, optional_triples, objects as said_objects};
ghost use Rattle.fx_turtle.specs.Grammar as grammar;
ghost use Rattle.fx_turtle.specs.Rule as rule;

use crate::faults::Fault;
use crate::kinds::Kind;
use crate::looks::{mark, sees};
use crate::objects::{object, opt_verb, subject, verb};
use crate::prefixes::Prefixes;
use crate::sources::Source;
use fx_terms::{Iri, RecentIris, Triple};
use std::alloc::Global;

/// A subject and a verb.
#[derive(Drop)]
struct About {
    subject: Iri,
    predicate: Iri,
}

/// A subject, and what is said of it.
pub fn subject_triples(
    alloc: Global,
    source: &Source,
    at: usize,
    prefixes: &Prefixes,
    recent: &mut RecentIris,
    triples: &mut Vec<Triple>,
) -> Result<usize, Fault>
    ensures { Adds source.now at triples.old.items triples.new.items result (λ said. said) (grammar.triples prefixes.now) }
{
    let (subject, next) = subject(alloc, source, at, prefixes, recent)?;
    properties(alloc, source, next, prefixes, recent, &subject, triples)
}

// Verbs and their objects, behind a subject.
fn properties(
    alloc: Global,
    source: &Source,
    at: usize,
    prefixes: &Prefixes,
    recent: &mut RecentIris,
    subject: &Iri,
    triples: &mut Vec<Triple>,
) -> Result<usize, Fault>
    ensures { Adds source.now at triples.old.items triples.new.items result (grammar.triples_of subject.now) (grammar.properties prefixes.now) }
{
    let mut next = property(alloc, source, at, prefixes, recent, subject, triples)?;
    'more: while sees(source, next, Kind::Semicolon) {
        let after = mark(alloc, source, next, Kind::Semicolon)?;
        next = opt_property(alloc, source, after, prefixes, recent, subject, triples)?;
    }
    Ok(next)
}

// A verb and its objects.
fn property(
    alloc: Global,
    source: &Source,
    at: usize,
    prefixes: &Prefixes,
    recent: &mut RecentIris,
    subject: &Iri,
    triples: &mut Vec<Triple>,
) -> Result<usize, Fault>
    ensures { Adds source.now at triples.old.items triples.new.items result (grammar.property_triples subject.now) (grammar.property prefixes.now) }
{
    let (predicate, next) = verb(alloc, source, at, prefixes, recent)?;
    let about = About {
        subject: subject.copy()?,
        predicate,
    };
    objects(alloc, source, next, prefixes, recent, &about, triples)
}

// The same, where a verb stands next.
fn opt_property(
    alloc: Global,
    source: &Source,
    at: usize,
    prefixes: &Prefixes,
    recent: &mut RecentIris,
    subject: &Iri,
    triples: &mut Vec<Triple>,
) -> Result<usize, Fault>
    ensures { Adds source.now at triples.old.items triples.new.items result (optional_triples subject.now) (rule.opt (grammar.property prefixes.now)) }
{
    let (verb, next) = opt_verb(alloc, source, at, prefixes, recent)?;
    match verb {
        Some(predicate) => {
            let about = About {
                subject: subject.copy()?,
                predicate,
            };
            objects(alloc, source, next, prefixes, recent, &about, triples)
        }
        None => Ok(next),
    }
}

// The objects of a subject and a verb.
fn objects(
    alloc: Global,
    source: &Source,
    at: usize,
    prefixes: &Prefixes,
    recent: &mut RecentIris,
    about: &About,
    triples: &mut Vec<Triple>,
) -> Result<usize, Fault>
    ensures { Adds source.now at triples.old.items triples.new.items result (object_triples about.now.subject about.now.predicate) (said_objects prefixes.now) }
{
    let mut next = one_object(alloc, source, at, prefixes, recent, about, triples)?;
    'more: while sees(source, next, Kind::Comma) {
        let after = mark(alloc, source, next, Kind::Comma)?;
        next = one_object(alloc, source, after, prefixes, recent, about, triples)?;
    }
    Ok(next)
}

fn one_object(
    alloc: Global,
    source: &Source,
    at: usize,
    prefixes: &Prefixes,
    recent: &mut RecentIris,
    about: &About,
    triples: &mut Vec<Triple>,
) -> Result<usize, Fault>
    ensures { Adds source.now at triples.old.items triples.new.items result (triple_of about.now.subject about.now.predicate) (grammar.object prefixes.now) }
{
    let (object, next) = object(alloc, source, at, prefixes, recent)?;
    triples.push(Triple {
        subject: about.subject.copy()?,
        predicate: about.predicate.copy()?,
        object,
    })?;
    Ok(next)
}
