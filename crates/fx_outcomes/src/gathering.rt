//! The occurrences of SERVICE of a query, in text order.
ghost use Rattle.std.specs.Prelude.{◌≡◌, ◌++◌, ◌∷◌, [], OnOk};
ghost use Rattle.std.specs.List.{flat_map};
ghost use Rattle.fx_outcomes.specs.Invocations as spec;

use fx_algebra::{Element, Group};
use fx_services::Occurrence;
use fx_terms::{Iri, Memory};

/// Puts the occurrences of a group, in text order, behind those that were found before.
#[cycle(gathering)]
pub fn gather_group<'a>(group: &'a Group, found: &mut Vec<Occurrence<'a>>) -> Result<(), Memory>
    ensures { OnOk result (found.new.items ≡ found.old.items ++ spec.in_group group.now) }
{
    for element in group.elements.as_slice() {
        match gather_element(element, found) {
            Ok(()) => {}
            Err(Memory) => return Err(Memory),
        }
    }
    Ok(())
}

// The same of an element.
#[cycle(gathering)]
fn gather_element<'a>(element: &'a Element, found: &mut Vec<Occurrence<'a>>) -> Result<(), Memory>
    ensures { OnOk result (found.new.items ≡ found.old.items ++ spec.in_element element.now) }
{
    match element {
        Element::Triple(_) => Ok(()),
        Element::Filter(_) => Ok(()),
        Element::Optional(group) => gather_group(group, found),
        Element::Union(groups) => gather_groups(groups.as_slice(), found),
        Element::Minus(group) => gather_group(group, found),
        Element::Bind { expr: _, name: _ } => Ok(()),
        Element::Values(_) => Ok(()),
        Element::Service { silent, iri, group } => gather_one(*silent, iri, group, found),
    }
}

// The same of groups, one after the other.
#[cycle(gathering)]
fn gather_groups<'a>(groups: &'a [Group], found: &mut Vec<Occurrence<'a>>) -> Result<(), Memory>
    ensures { OnOk result (found.new.items ≡ found.old.items ++ flat_map spec.in_group groups.now) }
{
    for group in groups {
        match gather_group(group, found) {
            Ok(()) => {}
            Err(Memory) => return Err(Memory),
        }
    }
    Ok(())
}

// The same of one occurrence.
fn gather_one<'a>(
    silent: bool,
    iri: &'a Iri,
    group: &'a Group,
    found: &mut Vec<Occurrence<'a>>,
) -> Result<(), Memory>
    ensures { OnOk result (found.new.items ≡ found.old.items ++ spec.one_of silent iri.now group.now) }
{
    if found.push(Occurrence { silent, iri, group }).is_err() {
        return Err(Memory);
    }
    Ok(())
}
