//! Elements of groups, made of their parts, and the names that they bind.
ghost use Rattle.fx_algebra.specs.Scopes.{all_of, mentions, with_name};
ghost use Rattle.std.specs.Prelude.{◌≡◌, fold, IfOk, OnOk, map, [], ◌∷◌};
ghost use Rattle.fx_grammar.specs.Grammar as grammar;

use crate::names::add_name;
use fx_algebra::scopes::add_element;
use fx_algebra::{Element, Expr, Group, Inline};
use fx_terms::{Boxed, Iri, Items, Memory, Name, Pattern};
use indexmap::IndexSet;
use std::alloc::{AllocError, Global};

/// A BIND.
pub fn bound(alloc: Global, expr: Boxed<Expr>, name: Name) -> Result<Boxed<Element>, AllocError>
    ensures { IfOk result (λ e. e ≡ Element.Bind expr name) }
{
    let expr = expr.into_inner();
    Boxed::new(alloc, Element::Bind { expr, name })
}

/// A FILTER.
pub fn filtered(alloc: Global, condition: Boxed<Expr>) -> Result<Boxed<Element>, AllocError>
    ensures { IfOk result (λ e. e ≡ Element.Filter condition) }
{
    Boxed::new(alloc, Element::Filter(condition.into_inner()))
}

/// An OPTIONAL.
pub fn optional(alloc: Global, inner: Group) -> Result<Boxed<Element>, AllocError>
    ensures { IfOk result (λ e. e ≡ Element.Optional inner) }
{
    Boxed::new(alloc, Element::Optional(inner))
}

/// A MINUS.
pub fn minus(alloc: Global, inner: Group) -> Result<Boxed<Element>, AllocError>
    ensures { IfOk result (λ e. e ≡ Element.Minus inner) }
{
    Boxed::new(alloc, Element::Minus(inner))
}

/// A group, or a UNION of several.
pub fn union(alloc: Global, parts: Items<Group>) -> Result<Boxed<Element>, AllocError>
    ensures { IfOk result (λ e. e ≡ Element.Union parts) }
{
    Boxed::new(alloc, Element::Union(parts))
}

/// A SERVICE.
pub fn service(
    alloc: Global,
    silent: bool,
    iri: Iri,
    group: Group,
) -> Result<Boxed<Element>, AllocError>
    ensures { IfOk result (λ e. e ≡ Element.Service silent iri group) }
{
    Boxed::new(alloc, Element::Service { silent, iri, group })
}

/// A VALUES.
pub fn inline_values(alloc: Global, inline: Inline) -> Result<Boxed<Element>, AllocError>
    ensures { IfOk result (λ e. e ≡ Element.Values inline) }
{
    Boxed::new(alloc, Element::Values(inline))
}

/// One element.
pub fn one_element(alloc: Global, part: Boxed<Element>) -> Result<Items<Element>, AllocError>
    ensures { IfOk result (λ parts. parts ≡ part ∷ []) }
{
    let mut parts = Items::new(alloc);
    parts.push(part.into_inner())?;
    Ok(parts)
}

/// Triples, as elements.
pub fn elements_of(alloc: Global, patterns: &[Pattern]) -> Result<Items<Element>, Memory>
    ensures { IfOk result (λ es. es ≡ map Element.Triple patterns.now) }
{
    let mut elements = Items::new(alloc);
    for pattern in patterns {
        elements.push(Element::Triple(pattern.copy()?))?;
    }
    Ok(elements)
}

/// The names that elements bind, beside those that were there.
pub fn note(alloc: Global, names: &mut IndexSet<Name>, elements: &[Element]) -> Result<(), Memory>
    ensures { OnOk result (names.new.keys ≡ grammar.with_elements names.old.keys elements.now) }
{
    let mentions = mentions(alloc, elements)?;
    note_names(names, mentions.as_slice())
}

fn mentions(alloc: Global, elements: &[Element]) -> Result<Vec<Name>, Memory>
    ensures { IfOk result (λ names. names.items ≡ all_of (map mentions elements.now)) }
{
    let mut names = Vec::new(alloc);
    for element in elements {
        add_element(&mut names, element)?;
    }
    Ok(names)
}

// More names, each where the names lack it.
fn note_names(names: &mut IndexSet<Name>, more: &[Name]) -> Result<(), Memory>
    ensures { OnOk result (names.new.keys ≡ fold with_name names.old.keys more.now) }
{
    for name in more {
        add_name(names, name.copy()?)?;
    }
    Ok(())
}

/// One group.
pub fn one_group(alloc: Global, part: Group) -> Result<Items<Group>, AllocError>
    ensures { IfOk result (λ parts. parts ≡ part ∷ []) }
{
    let mut parts = Items::new(alloc);
    parts.push(part)?;
    Ok(parts)
}
