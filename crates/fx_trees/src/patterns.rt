//! Triples, made of their parts.
ghost use Rattle.std.specs.Prelude.{◌≡◌, ◌++◌, IfOk, OnOk, [], ◌∷◌};
ghost use Rattle.fx_grammar.specs.Grammar as grammar;

use fx_terms::{Boxed, Iri, Items, Memory, Name, Pattern, PatternTerm, Term};
use std::alloc::{AllocError, Global};

/// A verb, and its objects.
pub type Property = (Boxed<PatternTerm>, Items<PatternTerm>);

/// A variable.
pub fn variable_part(alloc: Global, name: Name) -> Result<Boxed<PatternTerm>, AllocError>
    ensures { IfOk result (λ part. part ≡ PatternTerm.Variable name) }
{
    Boxed::new(alloc, PatternTerm::Variable(name))
}

/// An IRI.
pub fn iri_part(alloc: Global, iri: Iri) -> Result<Boxed<PatternTerm>, AllocError>
    ensures { IfOk result (λ part. part ≡ grammar.iri_part iri) }
{
    Boxed::new(alloc, PatternTerm::Constant(Term::Iri(iri)))
}

/// A term.
pub fn literal_part(alloc: Global, term: Boxed<Term>) -> Result<Boxed<PatternTerm>, AllocError>
    ensures { IfOk result (λ part. part ≡ PatternTerm.Constant term) }
{
    Boxed::new(alloc, PatternTerm::Constant(term.into_inner()))
}

/// One more part, behind those that were there.
pub fn add_term(parts: &mut Items<PatternTerm>, next: Boxed<PatternTerm>) -> Result<(), AllocError>
    ensures { OnOk result (parts.new ≡ parts.old ++ next ∷ []) }
{
    parts.push(next.into_inner())
}

/// One part.
pub fn one_part(alloc: Global, part: Boxed<PatternTerm>) -> Result<Items<PatternTerm>, AllocError>
    ensures { IfOk result (λ parts. parts ≡ part ∷ []) }
{
    let mut parts = Items::new(alloc);
    add_term(&mut parts, part)?;
    Ok(parts)
}

/// A verb with its objects behind those that were there, where there is one.
pub fn add_property(parts: &mut Items<Property>, next: Option<Property>) -> Result<(), AllocError>
    ensures { OnOk result (parts.new ≡ parts.old ++ grammar.option_list next) }
{
    match next {
        Some(part) => {
            parts.push(part)?;
            Ok(())
        }
        None => Ok(()),
    }
}

/// One verb with its objects.
pub fn one_property(alloc: Global, part: Property) -> Result<Items<Property>, AllocError>
    ensures { IfOk result (λ parts. parts ≡ part ∷ []) }
{
    let mut parts = Items::new(alloc);
    parts.push(part)?;
    Ok(parts)
}

// One more triple, behind those that were there.
fn add_pattern(
    patterns: &mut Items<Pattern>,
    subject: &PatternTerm,
    predicate: &PatternTerm,
    object: &PatternTerm,
) -> Result<(), Memory>
    ensures { OnOk result (patterns.new ≡ patterns.old ++ (record { subject = subject.now; predicate = predicate.now; object = object.now }) ∷ []) }
{
    patterns.push(Pattern {
        subject: subject.copy()?,
        predicate: predicate.copy()?,
        object: object.copy()?,
    })?;
    Ok(())
}

// The triples of a subject and a verb, behind those that were there.
fn add_objects(
    patterns: &mut Items<Pattern>,
    subject: &PatternTerm,
    property: &Property,
) -> Result<(), Memory>
    ensures { OnOk result (patterns.new ≡ patterns.old ++ grammar.property_triples subject.now property.now) }
{
    for object in property.1.as_slice() {
        add_pattern(patterns, subject, property.0.get(), object)?;
    }
    Ok(())
}

/// The triples of a subject.
pub fn triples_of(
    alloc: Global,
    subject: &PatternTerm,
    properties: &[Property],
) -> Result<Items<Pattern>, Memory>
    ensures { IfOk result (λ ts. ts ≡ grammar.triples_of subject.now properties.now) }
{
    let mut patterns = Items::new(alloc);
    for property in properties {
        add_objects(&mut patterns, subject, property)?;
    }
    Ok(patterns)
}

/// Triples behind those that were there, where there are any.
pub fn add_triples(
    patterns: &mut Items<Pattern>,
    next: Option<Items<Pattern>>,
) -> Result<(), AllocError>
    ensures { OnOk result (patterns.new ≡ patterns.old ++ grammar.option_items next) }
{
    match next {
        Some(more) => {
            patterns.append(more)?;
            Ok(())
        }
        None => Ok(()),
    }
}
