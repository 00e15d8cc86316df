//! The scope of a group.
ghost use Rattle.std.specs.Prelude.{◌≡◌, ◌++◌, map, IfOk, OnOk};
ghost use Rattle.fx_algebra.specs.Scopes as spec;

use crate::queries::{Element, Group};
use fx_terms::{Memory, Name, Pattern, PatternTerm};
use indexmap::IndexSet;
use std::alloc::Global;

/// The names that a group binds (SPARQL 1.1 section 18.2.1), in text order, each once. A triple gives its variables, BIND its
/// variable, VALUES its columns, UNION, nested groups, OPTIONAL and SERVICE what their groups give; FILTER and MINUS give
/// nothing.
pub fn scope(alloc: Global, group: &Group) -> Result<Vec<Name>, Memory>
    ensures { IfOk result (λ names. names.items ≡ spec.scope group.now) }
{
    let mut mentions = Vec::new(alloc);
    add_group(&mut mentions, group)?;
    once(alloc, mentions.as_slice())
}

/// Names, each once, at its first place.
pub fn once(alloc: Global, names: &[Name]) -> Result<Vec<Name>, Memory>
    ensures { IfOk result (λ all. all.items ≡ spec.once names.now) }
{
    let mut all = IndexSet::new(alloc);
    for name in names {
        all.insert(name.copy()?)?;
    }
    Ok(all.into_iter().collect(alloc)?)
}

/// Whether a name stands among names.
pub fn is_among(names: &[Name], name: &Name) -> bool
    ensures { result ≡ spec.is_among names.now name.now }
{
    names.iter().any(|other| *other == *name)
}

fn add_names(names: &mut Vec<Name>, more: &[Name]) -> Result<(), Memory>
    ensures { OnOk result (names.new.items ≡ names.old.items ++ more.now) }
{
    for name in more {
        names.push(name.copy()?)?;
    }
    Ok(())
}

fn add_part(names: &mut Vec<Name>, part: &PatternTerm) -> Result<(), Memory>
    ensures { OnOk result (names.new.items ≡ names.old.items ++ spec.part_names part.now) }
{
    match part {
        PatternTerm::Variable(name) => {
            names.push(name.copy()?)?;
            Ok(())
        }
        PatternTerm::Constant(_) => Ok(()),
    }
}

fn add_pattern(names: &mut Vec<Name>, pattern: &Pattern) -> Result<(), Memory>
    ensures { OnOk result (names.new.items ≡ names.old.items ++ spec.pattern_names pattern.now) }
{
    add_part(names, &pattern.subject)?;
    add_part(names, &pattern.predicate)?;
    add_part(names, &pattern.object)
}

/// The names that an element binds, behind those that were there, with repeats.
#[cycle(scope)]
pub fn add_element(names: &mut Vec<Name>, element: &Element) -> Result<(), Memory>
    ensures { OnOk result (names.new.items ≡ names.old.items ++ spec.mentions element.now) }
{
    match element {
        Element::Triple(pattern) => add_pattern(names, pattern),
        Element::Filter(_) => Ok(()),
        Element::Optional(group) => add_group(names, group),
        Element::Union(groups) => add_groups(names, groups.as_slice()),
        Element::Minus(_) => Ok(()),
        Element::Bind { expr: _, name } => {
            names.push(name.copy()?)?;
            Ok(())
        }
        Element::Values(inline) => add_names(names, inline.columns.as_slice()),
        Element::Service {
            silent: _,
            iri: _,
            group,
        } => add_group(names, group),
    }
}

#[cycle(scope)]
fn add_groups(names: &mut Vec<Name>, groups: &[Group]) -> Result<(), Memory>
    ensures { OnOk result (names.new.items ≡ names.old.items ++ spec.all_of (map spec.group_mentions groups.now)) }
{
    for group in groups {
        add_group(names, group)?;
    }
    Ok(())
}

#[cycle(scope)]
fn add_group(names: &mut Vec<Name>, group: &Group) -> Result<(), Memory>
    ensures { OnOk result (names.new.items ≡ names.old.items ++ spec.group_mentions group.now) }
{
    for element in group.elements.as_slice() {
        add_element(names, element)?;
    }
    Ok(())
}
