//! The occurrences of SERVICE.
ghost use Rattle.std.specs.Prelude.{◌≡◌, ◌++◌, map, IfOk, OnOk};
ghost use Rattle.fx_algebra.specs.Occurrences as spec;

use crate::queries::{Element, Group, Query};
use fx_terms::{Iri, Memory};
use std::alloc::Global;

/// The occurrences of SERVICE in a query (SPARQL 1.1 Federated Query, section 2), in text order: the IRI of each, and whether
/// it is silent. The number of an occurrence is its place in this list, from 0.
pub fn services(alloc: Global, query: &Query) -> Result<Vec<(Iri, bool)>, Memory>
    ensures { IfOk result (λ occurrences. occurrences.items ≡ spec.services query.now) }
{
    let mut occurrences = Vec::new(alloc);
    add_group(&mut occurrences, &query.group)?;
    Ok(occurrences)
}

#[cycle(services)]
fn add_element(occurrences: &mut Vec<(Iri, bool)>, element: &Element) -> Result<(), Memory>
    ensures { OnOk result (occurrences.new.items ≡ occurrences.old.items ++ spec.of_element element.now) }
{
    match element {
        Element::Triple(_) => Ok(()),
        Element::Filter(_) => Ok(()),
        Element::Optional(group) => add_group(occurrences, group),
        Element::Union(groups) => add_groups(occurrences, groups.as_slice()),
        Element::Minus(group) => add_group(occurrences, group),
        Element::Bind { expr: _, name: _ } => Ok(()),
        Element::Values(_) => Ok(()),
        Element::Service { silent, iri, group } => {
            occurrences.push((iri.copy()?, *silent))?;
            add_group(occurrences, group)
        }
    }
}

#[cycle(services)]
fn add_groups(occurrences: &mut Vec<(Iri, bool)>, groups: &[Group]) -> Result<(), Memory>
    ensures { OnOk result (occurrences.new.items ≡ occurrences.old.items ++ spec.all_of (map spec.of_group groups.now)) }
{
    for group in groups {
        add_group(occurrences, group)?;
    }
    Ok(())
}

#[cycle(services)]
fn add_group(occurrences: &mut Vec<(Iri, bool)>, group: &Group) -> Result<(), Memory>
    ensures { OnOk result (occurrences.new.items ≡ occurrences.old.items ++ spec.of_group group.now) }
{
    for element in group.elements.as_slice() {
        add_element(occurrences, element)?;
    }
    Ok(())
}
