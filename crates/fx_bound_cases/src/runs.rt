//! Units as they come of queries: those of a group that holds triple patterns and filters alone.
ghost use Rattle.std.specs.Prelude.{◌≡◌, ◌<◌, ◌++◌, All, IfSome, List, ℕ, OnSome, map};
ghost use Rattle.std.specs.List.{flat_map, list_all};
ghost use Rattle.fx_algebra.specs.Groups.{keeps_run};
ghost use Rattle.fx_grammar.specs.Accepted.{Accepted};
ghost use Rattle.fx_spelling.specs.Runs.{IsRun};
ghost use Rattle.fx_spelling.specs.Units.{IsFit};
ghost use Rattle.fx_bound_cases.specs.LoneRuns as spec;

use fx_algebra::{Element, Expr, Query, Unit};
use fx_plan::units;
use fx_syntax::parse;
use fx_terms::{Boxed, Items, Pattern};
use fx_traffic::planned_units_are_fit;
use std::alloc::Global;

/// The one unit of a run that is written as the elements of a group, where one member alone has anything for it.
pub fn unit_of(alloc: Global, run: &str) -> Option<Boxed<Unit>>
    ensures { IfSome result (λ unit. IsFit unit) }
{
    let text = format!(in alloc; "PREFIX e: <http://e/> ASK {{ {run} }}").ok()?;
    unit_of_text(alloc, text.as_bytes())
}

fn unit_of_text(alloc: Global, text: &[u8]) -> Option<Boxed<Unit>>
    ensures { IfSome result (λ unit. IsFit unit) }
{
    match parse(alloc, text) {
        Ok(query) => unit_of_query(alloc, &query),
        Err(_) => None,
    }
}

fn unit_of_query(alloc: Global, query: &Query) -> Option<Boxed<Unit>>
    requires { (text : List ℕ) × Accepted text query.now }
    ensures { IfSome result (λ unit. IsFit unit) }
{
    let elements = query.group.elements.as_slice();
    if !is_run(elements) {
        return None;
    }
    let patterns = patterns_of(alloc, elements)?;
    if patterns.is_empty() {
        return None;
    }
    let filters = filters_of(alloc, elements)?;
    unit_of_run(alloc, patterns.as_slice(), filters.as_slice())
}

fn unit_of_run(alloc: Global, patterns: &[Pattern], filters: &[Expr]) -> Option<Boxed<Unit>>
    requires { IsRun patterns.now filters.now }
    ensures { IfSome result (λ unit. IsFit unit) }
{
    planned_units_are_fit();
    let sources = sources_of(alloc, patterns)?;
    match units(alloc, patterns, sources.as_slice(), filters, &[]) {
        Ok(planned) => only(alloc, planned),
        Err(_) => None,
    }
}

fn only(alloc: Global, planned: Vec<Unit>) -> Option<Boxed<Unit>>
    requires { All IsFit planned.items }
    ensures { IfSome result (λ unit. IsFit unit) }
{
    let mut planned = planned;
    if planned.len() != 1 {
        return None;
    }
    let unit = planned.pop()?;
    Boxed::new(alloc, unit).ok()
}

// The one member, for each pattern.
fn sources_of(alloc: Global, patterns: &[Pattern]) -> Option<Vec<Items<u32>>>
    ensures { IfSome result (λ sources. sources.items ≡ map spec.member_of patterns.now) }
{
    let mut sources = Vec::new(alloc);
    for _pattern in patterns {
        sources.push(one_member(alloc)?).ok()?;
    }
    Some(sources)
}

fn one_member(alloc: Global) -> Option<Items<u32>>
    ensures { IfSome result (λ members. members ≡ spec.one_member) }
{
    let mut members = Items::new(alloc);
    members.push(0).ok()?;
    Some(members)
}

fn is_run(elements: &[Element]) -> bool
    ensures { result ≡ list_all keeps_run (map spec.part_of elements.now) }
{
    for element in elements {
        if !is_of_run(element) {
            return false;
        }
    }
    true
}

fn is_of_run(element: &Element) -> bool
    ensures { result ≡ keeps_run (spec.part_of element.now) }
{
    match element {
        Element::Triple(_) => true,
        Element::Filter(_) => true,
        Element::Optional(_) => false,
        Element::Union(_) => false,
        Element::Minus(_) => false,
        Element::Bind { expr: _, name: _ } => false,
        Element::Values(_) => false,
        Element::Service {
            silent: _,
            iri: _,
            group: _,
        } => false,
    }
}

fn patterns_of(alloc: Global, elements: &[Element]) -> Option<Items<Pattern>>
    ensures { IfSome result (λ patterns. patterns ≡ flat_map spec.part_patterns (map spec.part_of elements.now)) }
{
    let mut patterns = Items::new(alloc);
    for element in elements {
        push_pattern(&mut patterns, element)?;
    }
    Some(patterns)
}

fn push_pattern(patterns: &mut Items<Pattern>, element: &Element) -> Option<()>
    ensures { OnSome result (patterns.new ≡ patterns.old ++ spec.part_patterns (spec.part_of element.now)) }
{
    if let Element::Triple(pattern) = element {
        patterns.push(pattern.copy().ok()?).ok()?;
    }
    Some(())
}

fn filters_of(alloc: Global, elements: &[Element]) -> Option<Items<Expr>>
    ensures { IfSome result (λ filters. filters ≡ flat_map spec.part_filters (map spec.part_of elements.now)) }
{
    let mut filters = Items::new(alloc);
    for element in elements {
        push_filter(alloc, &mut filters, element)?;
    }
    Some(filters)
}

fn push_filter(alloc: Global, filters: &mut Items<Expr>, element: &Element) -> Option<()>
    ensures { OnSome result (filters.new ≡ filters.old ++ spec.part_filters (spec.part_of element.now)) }
{
    if let Element::Filter(filter) = element {
        filters.push(filter.copy(alloc).ok()?).ok()?;
    }
    Some(())
}
