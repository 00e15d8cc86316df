//! The parts of a query that requests are sent for.
ghost use Rattle.std.specs.Prelude.{◌≡◌, ◌++◌, [], IfOk, OnOk, map};
ghost use Rattle.std.specs.List.{flat_map};
ghost use Rattle.fx_algebra.specs.BasicGraphPatterns.{variables};
ghost use Rattle.fx_algebra.specs.Scopes.{part_names, pattern_names};
ghost use Rattle.fx_algebra.specs.Groups.{keeps_run as keeps};
ghost use Rattle.fx_walks.specs.SectionSteps as spec;
ghost use Rattle.fx_walks.specs.Sections.{sections as sections_of};

use fx_algebra::scopes::{add_element as add_names, once};
use fx_algebra::units::{copy_filters, copy_patterns};
use fx_algebra::{Element, Expr, Group, Query};
use fx_terms::{Iri, Items, Memory, Name, Pattern, PatternTerm};
use std::alloc::Global;

/// A part of a query that requests are sent for.
#[derive(Drop)]
pub enum Section {
    /// A maximal run of triple patterns of a group, with nothing but filters between them. With it come the filters of the whole
    /// group, and the names in scope before the run, each once.
    Run {
        patterns: Items<Pattern>,
        filters: Items<Expr>,
        bound: Items<Name>,
    },
    /// An occurrence of SERVICE.
    Service {
        iri: Iri,
    },
}

// The names that elements bind, with repeats, and the patterns of the run behind them, which hasn't ended.
#[derive(Drop)]
struct Pending {
    known: Vec<Name>,
    run: Vec<Pattern>,
}

/// The runs of a query outside SERVICE and its occurrences of SERVICE, in text order. The names before a run are those of the
/// elements before it in its group; those before the run of an OPTIONAL that holds triple patterns and filters alone are those
/// before the OPTIONAL.
pub fn sections(alloc: Global, query: &Query) -> Result<Vec<Section>, Memory>
    ensures { IfOk result (λ sections. sections.items ≡ sections_of query.now) }
{
    let mut sections = Vec::new(alloc);
    add_group(alloc, &mut sections, &query.group, &[])?;
    Ok(sections)
}

// The sections of a group, where these names are bound before its first element.
#[cycle(sections)]
fn add_group(
    alloc: Global,
    sections: &mut Vec<Section>,
    group: &Group,
    before: &[Name],
) -> Result<(), Memory>
    ensures { OnOk result (sections.new.items ≡ sections.old.items ++ spec.sections_in (spec.group_of group.now).cut before.now) }
{
    let filters = filters_of(alloc, group)?;
    let mut pending = begin(alloc, before)?;
    for element in group.elements.as_slice() {
        if keeps_run(element) {
            push_pattern(&mut pending.run, element)?;
        } else {
            end_run(alloc, sections, &mut pending, filters.as_slice())?;
            add_inside(alloc, sections, element, pending.known.as_slice())?;
            add_names(&mut pending.known, element)?;
        }
    }
    end_run(alloc, sections, &mut pending, filters.as_slice())
}

// The sections inside an element, where these names are bound before it.
#[cycle(sections)]
fn add_inside(
    alloc: Global,
    sections: &mut Vec<Section>,
    element: &Element,
    before: &[Name],
) -> Result<(), Memory>
    ensures { OnOk result (sections.new.items ≡ sections.old.items ++ spec.inside_of (spec.part_of element.now) before.now) }
{
    match element {
        Element::Triple(_) => Ok(()),
        Element::Filter(_) => Ok(()),
        Element::Optional(group) => {
            if is_simple(group) {
                add_group(alloc, sections, group, before)
            } else {
                add_group(alloc, sections, group, &[])
            }
        }
        Element::Union(groups) => add_groups(alloc, sections, groups.as_slice()),
        Element::Minus(group) => add_group(alloc, sections, group, &[]),
        Element::Bind { expr: _, name: _ } => Ok(()),
        Element::Values(_) => Ok(()),
        Element::Service {
            silent: _,
            iri,
            group: _,
        } => {
            sections.push(Section::Service { iri: iri.copy()? })?;
            Ok(())
        }
    }
}

#[cycle(sections)]
fn add_groups(alloc: Global, sections: &mut Vec<Section>, groups: &[Group]) -> Result<(), Memory>
    ensures { OnOk result (sections.new.items ≡ sections.old.items ++ spec.alternatives (map spec.group_of groups.now)) }
{
    for group in groups {
        add_group(alloc, sections, group, &[])?;
    }
    Ok(())
}

fn begin(alloc: Global, before: &[Name]) -> Result<Pending, Memory>
    ensures known { IfOk result (λ pending. pending.known.items ≡ before.now) }
    ensures run { IfOk result (λ pending. pending.run.items ≡ []) }
{
    let mut known = Vec::new(alloc);
    for name in before {
        known.push(name.copy()?)?;
    }
    Ok(Pending {
        known,
        run: Vec::new(alloc),
    })
}

// Ends the run, if there is one. Its variables are known behind it.
fn end_run(
    alloc: Global,
    sections: &mut Vec<Section>,
    pending: &mut Pending,
    filters: &[Expr],
) -> Result<(), Memory>
    ensures sections { OnOk result (sections.new.items ≡ sections.old.items ++ spec.run_of filters.now pending.old.known.items pending.old.run.items) }
    ensures known { OnOk result (pending.new.known.items ≡ pending.old.known.items ++ variables pending.old.run.items) }
    ensures run { OnOk result (pending.new.run.items ≡ []) }
{
    if pending.run.is_empty() {
        return Ok(());
    }
    sections.push(Section::Run {
        patterns: copy_patterns(alloc, pending.run.as_slice())?,
        filters: copy_filters(alloc, filters)?,
        bound: Items::from_vec(once(alloc, pending.known.as_slice())?),
    })?;
    push_variables(&mut pending.known, pending.run.as_slice())?;
    pending.run.clear();
    Ok(())
}

// The variables of patterns, behind the names that were there, with repeats.
fn push_variables(names: &mut Vec<Name>, patterns: &[Pattern]) -> Result<(), Memory>
    ensures { OnOk result (names.new.items ≡ names.old.items ++ variables patterns.now) }
{
    for pattern in patterns {
        push_names(names, pattern)?;
    }
    Ok(())
}

// The variables of a pattern, behind the names that were there, with repeats.
fn push_names(names: &mut Vec<Name>, pattern: &Pattern) -> Result<(), Memory>
    ensures { OnOk result (names.new.items ≡ names.old.items ++ pattern_names pattern.now) }
{
    push_name(names, &pattern.subject)?;
    push_name(names, &pattern.predicate)?;
    push_name(names, &pattern.object)
}

fn push_name(names: &mut Vec<Name>, part: &PatternTerm) -> Result<(), Memory>
    ensures { OnOk result (names.new.items ≡ names.old.items ++ part_names part.now) }
{
    if let PatternTerm::Variable(name) = part {
        names.push(name.copy()?)?;
    }
    Ok(())
}

// The pattern of an element, behind those that were there, where it is a triple pattern.
fn push_pattern(run: &mut Vec<Pattern>, element: &Element) -> Result<(), Memory>
    ensures { OnOk result (run.new.items ≡ run.old.items ++ spec.part_patterns (spec.part_of element.now)) }
{
    if let Element::Triple(pattern) = element {
        run.push(pattern.copy()?)?;
    }
    Ok(())
}

// The filters of a group.
pub fn filters_of(alloc: Global, group: &Group) -> Result<Vec<Expr>, Memory>
    ensures { IfOk result (λ filters. filters.items ≡ flat_map spec.part_filters (map spec.part_of group.now.elements)) }
{
    let mut filters = Vec::new(alloc);
    for element in group.elements.as_slice() {
        push_filter(alloc, &mut filters, element)?;
    }
    Ok(filters)
}

// The condition of an element, behind those that were there, where it is a filter.
fn push_filter(alloc: Global, filters: &mut Vec<Expr>, element: &Element) -> Result<(), Memory>
    ensures { OnOk result (filters.new.items ≡ filters.old.items ++ spec.part_filters (spec.part_of element.now)) }
{
    if let Element::Filter(filter) = element {
        filters.push(filter.copy(alloc)?)?;
    }
    Ok(())
}

// Whether a group holds triple patterns and filters alone.
pub fn is_simple(group: &Group) -> bool
    ensures { result ≡ (spec.group_of group.now).is_simple }
{
    for element in group.elements.as_slice() {
        if !keeps_run(element) {
            return false;
        }
    }
    true
}

// Whether a run goes on behind an element: it is a triple pattern or a filter.
pub fn keeps_run(element: &Element) -> bool
    ensures { result ≡ keeps (spec.part_of element.now) }
{
    match element {
        Element::Triple(_) => true,
        Element::Filter(_) => true,
        Element::Optional(_) => false,
        Element::Union(_) => false,
        Element::Minus(_) => false,
        Element::Bind { expr: _, name: _ } => false,
        Element::Values(_) => false,
        Element::Service {
            silent: _,
            iri: _,
            group: _,
        } => false,
    }
}
