//! The calls of `fx_plan`. A run is its patterns with ` ; ` between, each with ` @ ` and the numbers of its members behind it, and
//! filters are expressions with ` ; ` between.
ghost use Rattle.std.specs.Prelude.{◌≡◌, All, IsTrue, length};
ghost use Rattle.fx_plan.specs.Explained.{HasMembers, IsWithin};

use fx_algebra::{Expr, Unit};
use fx_notation::notation;
use fx_plan::{Part, explain, units};
use fx_sources::Registry;
use fx_terms::{Iri, Items, Name, Pattern, PatternTerm};
use std::alloc::Global;
use std::fmt::Write;

/// What a call gives.
pub fn answer(alloc: Global, call: &str, inputs: &[&str]) -> Option<String> {
    match (call, inputs) {
        ("units", [run, filters, bound]) => units_text(alloc, run, filters, bound),
        ("units with a nested filter", [run, depth]) => nested_text(alloc, run, depth),
        ("explain", parts) => explained(alloc, parts),
        _ => None,
    }
}

fn units_text(alloc: Global, run: &str, filters: &str, bound: &str) -> Option<String> {
    let plan = plan_of(alloc, run, filters, bound)?;
    let mut text = String::new(alloc);
    for unit in &plan {
        if !text.is_empty() {
            text.push_str(" ; ").ok()?;
        }
        push_unit(&mut text, unit)?;
    }
    Some(text)
}

// The same, where the filter is so many calls of STR in one another, round `?a`.
fn nested_text(alloc: Global, run: &str, depth: &str) -> Option<String> {
    let depth = depth.parse::<u8>().ok()?;
    let mut filter = String::new(alloc);
    for _ in 0..depth {
        filter.push_str("STR ( ").ok()?;
    }
    filter.push_str("?a").ok()?;
    for _ in 0..depth {
        filter.push_str(" )").ok()?;
    }
    units_text(alloc, run, filter.as_str(), "")
}

fn plan_of(alloc: Global, run: &str, filters: &str, bound: &str) -> Option<Vec<Unit>> {
    let patterns = patterns(alloc, run)?;
    let sources = sources(alloc, run)?;
    if patterns.len() != sources.len() {
        return None;
    }
    plan_over(
        alloc,
        patterns.as_slice(),
        sources.as_slice(),
        filters,
        bound,
    )
}

fn plan_over(
    alloc: Global,
    patterns: &[Pattern],
    sources: &[Items<u32>],
    filters: &str,
    bound: &str,
) -> Option<Vec<Unit>>
    requires { length patterns.now ≡ length sources.now }
{
    let filters = filters_of(alloc, filters)?;
    let bound = names(alloc, bound)?;
    units(
        alloc,
        patterns,
        sources,
        filters.as_slice(),
        bound.as_slice(),
    )
    .ok()
}

// A unit as its members, the subjects of its patterns, and the number of its filters.
fn push_unit(text: &mut String, unit: &Unit) -> Option<()> {
    text.push_str(if unit.group { "group" } else { "single" })
        .ok()?;
    for member in unit.members.as_slice() {
        write!(text, " {member}").ok()?;
    }
    text.push(':').ok()?;
    for pattern in unit.patterns.as_slice() {
        push_subject(text, pattern)?;
    }
    let count = unit.filters.len();
    if count > 0 {
        write!(text, " with {count}").ok()?;
    }
    Some(())
}

fn push_subject(text: &mut String, pattern: &Pattern) -> Option<()> {
    if let PatternTerm::Variable(name) = &pattern.subject {
        text.push_str(" ?").ok()?;
        text.push_str(name.text()).ok()?;
    }
    Some(())
}

// The text of parts over the members M1, M2 and M3.
fn explained(alloc: Global, fields: &[&str]) -> Option<String> {
    let lines = "M1 http://h/1\nM2 http://h/2\nM3 http://h/3\n";
    let registry = Registry::read(alloc, lines.as_bytes()).ok()?;
    let parts = parts(alloc, fields)?;
    if !have_members(parts.as_slice(), registry.endpoints().len()) {
        return None;
    }
    explain(alloc, parts.as_slice(), registry.endpoints()).ok()
}

fn have_members(parts: &[Part], count: usize) -> bool
    ensures { IsTrue result → All (HasMembers count) parts.now }
{
    parts.iter().all(|part| has_members(part, count))
}

fn has_members(part: &Part, count: usize) -> bool
    ensures { IsTrue result → HasMembers count part.now }
{
    match part {
        Part::Run { units, bound: _ } => are_within(units.as_slice(), count),
        Part::EmptyRun => true,
        Part::Service { iri: _ } => true,
    }
}

fn are_within(units: &[Unit], count: usize) -> bool
    ensures { IsTrue result → All (IsWithin count) units.now }
{
    units.iter().all(|unit| is_within(unit, count))
}

fn is_within(unit: &Unit, count: usize) -> bool
    ensures { IsTrue result → IsWithin count unit.now }
{
    unit.members
        .as_slice()
        .iter()
        .all(|member| (*member as usize) < count)
}

fn parts(alloc: Global, fields: &[&str]) -> Option<Vec<Part>> {
    let mut parts = Vec::new(alloc);
    for field in fields {
        parts.push(part(alloc, field)?).ok()?;
    }
    Some(parts)
}

// `planned RUN | FILTERS | BOUND`, `units BOUND | UNIT | UNIT ..`, `service IRI`, or `empty run`.
fn part(alloc: Global, field: &str) -> Option<Part> {
    if let Some(rest) = field.strip_prefix("planned ") {
        return planned(alloc, rest);
    }
    if let Some(rest) = field.strip_prefix("units") {
        return by_hand(alloc, rest);
    }
    if let Some(rest) = field.strip_prefix("service ") {
        return Some(Part::Service {
            iri: Iri::read(alloc, rest).ok()?,
        });
    }
    if field == "empty run" {
        Some(Part::EmptyRun)
    } else {
        None
    }
}

fn planned(alloc: Global, text: &str) -> Option<Part> {
    let (run, rest) = text.split_once(" |")?;
    let (filters, bound) = rest.split_once(" |")?;
    let plan = plan_of(alloc, run, filters.trim(), bound)?;
    Some(Part::Run {
        units: Items::from_vec(plan),
        bound: Items::from_vec(names(alloc, bound)?),
    })
}

fn by_hand(alloc: Global, text: &str) -> Option<Part> {
    let (bound, rest) = text.split_once(" | ")?;
    let mut units = Items::new(alloc);
    for unit in rest.split(" | ") {
        units.push(unit_of(alloc, unit)?).ok()?;
    }
    Some(Part::Run {
        units,
        bound: Items::from_vec(names(alloc, bound)?),
    })
}

// `group RUN`, `single RUN`, or one of these with `with FILTERS` behind it.
fn unit_of(alloc: Global, text: &str) -> Option<Unit> {
    let (kind, rest) = text.split_once(' ')?;
    let (run, filters) = rest.split_once(" with ").unwrap_or((rest, ""));
    Some(Unit {
        patterns: patterns(alloc, run)?,
        filters: filters_of(alloc, filters)?,
        members: members(alloc, run)?,
        group: kind == "group",
    })
}

fn patterns(alloc: Global, run: &str) -> Option<Items<Pattern>> {
    let mut patterns = Items::new(alloc);
    for text in run.split(" ; ") {
        if let Some((text, _)) = text.split_once(" @") {
            push_pattern(alloc, &mut patterns, text)?;
        }
    }
    Some(patterns)
}

fn push_pattern(alloc: Global, patterns: &mut Items<Pattern>, text: &str) -> Option<()> {
    let pattern = notation::pattern(alloc, text)?;
    patterns.push(pattern.into_inner()).ok()
}

fn sources(alloc: Global, run: &str) -> Option<Vec<Items<u32>>> {
    let mut sources = Vec::new(alloc);
    for text in run.split(" ; ") {
        if !text.is_empty() {
            sources.push(members(alloc, text)?).ok()?;
        }
    }
    Some(sources)
}

// The numbers behind ` @`.
fn members(alloc: Global, text: &str) -> Option<Items<u32>> {
    let (_, numbers) = text.split_once(" @")?;
    let mut members = Items::new(alloc);
    for word in numbers.split_whitespace() {
        members.push(word.parse::<u32>().ok()?).ok()?;
    }
    Some(members)
}

fn names(alloc: Global, texts: &str) -> Option<Vec<Name>> {
    let mut names = Vec::new(alloc);
    for text in texts.split_whitespace() {
        names.push(Name::read(alloc, text).ok()?).ok()?;
    }
    Some(names)
}

fn filters_of(alloc: Global, texts: &str) -> Option<Items<Expr>> {
    let mut filters = Items::new(alloc);
    for text in texts.split(" ; ") {
        if !text.is_empty() {
            notation::push_expression(alloc, &mut filters, text)?;
        }
    }
    Some(filters)
}
