//! The patterns of a query.
ghost use Rattle.std.specs.Prelude.{◌≡◌, ◌++◌, map, IfOk, OnOk};
ghost use Rattle.fx_sources.specs.Patterns as spec;

use fx_algebra::{Element, Group, Query};
use fx_terms::{Memory, Pattern};
use std::alloc::Global;

/// The triple patterns of a query outside SERVICE, in text order.
pub fn patterns(alloc: Global, query: &Query) -> Result<Vec<Pattern>, Memory>
    ensures { IfOk result (λ patterns. patterns.items ≡ spec.patterns query.now) }
{
    let mut patterns = Vec::new(alloc);
    add_group(&mut patterns, &query.group)?;
    Ok(patterns)
}

#[cycle(patterns)]
fn add_element(patterns: &mut Vec<Pattern>, element: &Element) -> Result<(), Memory>
    ensures { OnOk result (patterns.new.items ≡ patterns.old.items ++ spec.of_element element.now) }
{
    match element {
        Element::Triple(pattern) => {
            patterns.push(pattern.copy()?)?;
            Ok(())
        }
        Element::Filter(_) => Ok(()),
        Element::Optional(group) => add_group(patterns, group),
        Element::Union(groups) => add_groups(patterns, groups.as_slice()),
        Element::Minus(group) => add_group(patterns, group),
        Element::Bind { expr: _, name: _ } => Ok(()),
        Element::Values(_) => Ok(()),
        Element::Service {
            silent: _,
            iri: _,
            group: _,
        } => Ok(()),
    }
}

#[cycle(patterns)]
fn add_groups(patterns: &mut Vec<Pattern>, groups: &[Group]) -> Result<(), Memory>
    ensures { OnOk result (patterns.new.items ≡ patterns.old.items ++ spec.all_of (map spec.of_group groups.now)) }
{
    for group in groups {
        add_group(patterns, group)?;
    }
    Ok(())
}

#[cycle(patterns)]
fn add_group(patterns: &mut Vec<Pattern>, group: &Group) -> Result<(), Memory>
    ensures { OnOk result (patterns.new.items ≡ patterns.old.items ++ spec.of_group group.now) }
{
    for element in group.elements.as_slice() {
        add_element(patterns, element)?;
    }
    Ok(())
}
