//! The text of plans.
ghost use Rattle.std.specs.Prelude.{◌≡◌, ◌<◌, ◌++◌, ◌∷◌, codes, ◌^◌, All, IfOk, OnOk, length, string_bytes};
ghost use Rattle.std.specs.Fmt.{decimal};
ghost use Rattle.fx_algebra.specs.Printed.{condition, fixed, pattern_words, printed, spaced};
ghost use Rattle.fx_plan.specs.Explained as spec;
ghost use Rattle.fx_plan.specs.Plans.{free};

use crate::names::Names;
use crate::orders::free_names;
use fx_algebra::{Expr, Unit};
use fx_outside::Endpoint;
use fx_print::expressions::{is_call, push_bracketed, push_expr};
use fx_print::words::{push_fixed, push_part as push_part_of};
use fx_terms::{Iri, Items, Memory, Name, Pattern};
use itoa::Buffer;
use std::alloc::Global;

/// A part of a query that requests are sent for.
#[derive(Drop)]
pub enum Part {
    /// A run of triple patterns: its plan, and the names that are bound before it.
    Run {
        units: Items<Unit>,
        bound: Items<Name>,
    },
    /// A run with a pattern that no member has anything for.
    EmptyRun,
    /// An occurrence of SERVICE.
    Service {
        iri: Iri,
    },
}

/// The text of parts of a query, which are given in text order.
///
/// A run has the line `run` and its number, which counts the runs from 0, and `empty` behind it where no request is sent for it.
/// Each of its units has a line, `group` or `single`, the names of its members with commas between, the number of its variables
/// that are neither bound before the run nor in an earlier unit, and `free`; then for each pattern and each filter a line with
/// two spaces and the element as it is printed. A SERVICE has the line `service` and its IRI. Each line ends with LF.
pub fn explain(alloc: Global, parts: &[Part], endpoints: &[Endpoint]) -> Result<String, Memory>
    requires { All (spec.HasMembers (length endpoints.now)) parts.now }
    ensures { IfOk result (λ text. string_bytes text ≡ spec.explained parts.now endpoints.now) }
{
    let mut text = String::new(alloc);
    let mut number = 0;
    for part in parts {
        push_part(alloc, &mut text, number, part, endpoints)?;
        number = number_behind(number, part);
    }
    Ok(text)
}

fn number_behind(number: u64, part: &Part) -> u64
    requires { number < 2 ^ 63 }
    ensures { result ≡ spec.number_behind number part.now }
{
    match part {
        Part::Run { units: _, bound: _ } => number + 1,
        Part::EmptyRun => number + 1,
        Part::Service { iri: _ } => number,
    }
}

fn push_part(
    alloc: Global,
    text: &mut String,
    number: u64,
    part: &Part,
    endpoints: &[Endpoint],
) -> Result<(), Memory>
    requires { spec.HasMembers (length endpoints.now) part.now }
    ensures { OnOk result (string_bytes text.new ≡ string_bytes text.old ++ spec.part_text endpoints.now number part.now) }
{
    match part {
        Part::Run { units, bound } => {
            text.push_str("run ")?;
            push_number(text, number)?;
            text.push('\n')?;
            push_units(alloc, text, units.as_slice(), bound.as_slice(), endpoints)
        }
        Part::EmptyRun => {
            text.push_str("run ")?;
            push_number(text, number)?;
            text.push_str(" empty\n")?;
            Ok(())
        }
        Part::Service { iri } => {
            text.push_str("service ")?;
            text.push_str(iri.text())?;
            text.push('\n')?;
            Ok(())
        }
    }
}

fn push_number(text: &mut String, number: u64) -> Result<(), Memory>
    ensures { OnOk result (string_bytes text.new ≡ string_bytes text.old ++ decimal number) }
{
    let mut buffer = Buffer::new();
    text.push_str(buffer.format(number))?;
    Ok(())
}

fn push_units(
    alloc: Global,
    text: &mut String,
    units: &[Unit],
    bound: &[Name],
    endpoints: &[Endpoint],
) -> Result<(), Memory>
    requires { All (spec.IsWithin (length endpoints.now)) units.now }
    ensures { OnOk result (string_bytes text.new ≡ string_bytes text.old ++ spec.unit_texts endpoints.now bound.now units.now) }
{
    let mut known = Names::new(alloc);
    known.add_all(bound)?;
    for unit in units {
        push_unit(alloc, text, &known, unit, endpoints)?;
        known.add_patterns(unit.patterns.as_slice())?;
    }
    Ok(())
}

fn push_unit(
    alloc: Global,
    text: &mut String,
    known: &Names,
    unit: &Unit,
    endpoints: &[Endpoint],
) -> Result<(), Memory>
    requires { spec.IsWithin (length endpoints.now) unit.now }
    ensures { OnOk result (string_bytes text.new ≡ string_bytes text.old ++ spec.unit_text endpoints.now known.now unit.now) }
{
    push_unit_line(alloc, text, known, unit, endpoints)?;
    push_patterns(text, unit.patterns.as_slice())?;
    push_filters(text, unit.filters.as_slice())
}

fn push_unit_line(
    alloc: Global,
    text: &mut String,
    known: &Names,
    unit: &Unit,
    endpoints: &[Endpoint],
) -> Result<(), Memory>
    requires { spec.IsWithin (length endpoints.now) unit.now }
    ensures { OnOk result (string_bytes text.new ≡ string_bytes text.old ++ spec.unit_line endpoints.now known.now unit.now) }
{
    text.push_str(kind(unit.group))?;
    push_members(text, unit.members.as_slice(), endpoints)?;
    text.push(' ')?;
    push_number(text, count_free(alloc, known, unit)?)?;
    text.push_str(" free\n")?;
    Ok(())
}

fn kind(group: bool) -> &'static str
    ensures { result.now ≡ spec.kind group }
{
    if group { "group " } else { "single " }
}

fn count_free(alloc: Global, known: &Names, unit: &Unit) -> Result<u64, Memory>
    ensures { IfOk result (λ count. count ≡ free known.now unit.now) }
{
    let names = free_names(alloc, known, unit.patterns.as_slice())?;
    Ok(names.len() as u64)
}

fn push_members(text: &mut String, members: &[u32], endpoints: &[Endpoint]) -> Result<(), Memory>
    requires { All (λ m. m < length endpoints.now) members.now }
    ensures { OnOk result (string_bytes text.new ≡ string_bytes text.old ++ spec.member_names endpoints.now members.now) }
{
    let mut is_first = true;
    for member in members {
        if is_first {
            is_first = false;
        } else {
            text.push(',')?;
        }
        push_name(text, *member, endpoints)?;
    }
    Ok(())
}

fn push_name(text: &mut String, member: u32, endpoints: &[Endpoint]) -> Result<(), Memory>
    requires { member < length endpoints.now }
    ensures { OnOk result (string_bytes text.new ≡ string_bytes text.old ++ spec.name_of endpoints.now member) }
{
    text.push_str(endpoints[member as usize].name())?;
    Ok(())
}

fn push_patterns(text: &mut String, patterns: &[Pattern]) -> Result<(), Memory>
    ensures { OnOk result (string_bytes text.new ≡ string_bytes text.old ++ spec.pattern_lines patterns.now) }
{
    for pattern in patterns {
        push_pattern(text, pattern)?;
    }
    Ok(())
}

// Each word of an element stands behind a space.
fn push_pattern(text: &mut String, pattern: &Pattern) -> Result<(), Memory>
    ensures { OnOk result (string_bytes text.new ≡ string_bytes text.old ++ spec.pattern_line pattern.now) }
{
    text.push(' ')?;
    push_pattern_words(text, pattern)?;
    text.push('\n')?;
    Ok(())
}

fn push_pattern_words(text: &mut String, pattern: &Pattern) -> Result<(), Memory>
    ensures { OnOk result (string_bytes text.new ≡ string_bytes text.old ++ spaced (pattern_words pattern.now)) }
{
    push_part_of(text, &pattern.subject)?;
    push_part_of(text, &pattern.predicate)?;
    push_part_of(text, &pattern.object)?;
    push_fixed(text, ".")
}

fn push_filters(text: &mut String, filters: &[Expr]) -> Result<(), Memory>
    ensures { OnOk result (string_bytes text.new ≡ string_bytes text.old ++ spec.filter_lines filters.now) }
{
    for filter in filters {
        push_filter(text, filter)?;
    }
    Ok(())
}

fn push_filter(text: &mut String, filter: &Expr) -> Result<(), Memory>
    ensures { OnOk result (string_bytes text.new ≡ string_bytes text.old ++ spec.filter_line filter.now) }
{
    text.push(' ')?;
    push_filter_words(text, filter)?;
    text.push('\n')?;
    Ok(())
}

fn push_filter_words(text: &mut String, filter: &Expr) -> Result<(), Memory>
    ensures { OnOk result (string_bytes text.new ≡ string_bytes text.old ++ spaced (fixed (codes "FILTER") ∷ condition (printed filter.now))) }
{
    push_fixed(text, "FILTER")?;
    push_condition(text, filter)
}

#[tactic(auto, unfolding(fx_algebra::specs::Printed::condition))]
fn push_condition(text: &mut String, filter: &Expr) -> Result<(), Memory>
    ensures { OnOk result (string_bytes text.new ≡ string_bytes text.old ++ spaced (condition (printed filter.now))) }
{
    if is_call(filter) {
        push_expr(text, filter)
    } else {
        push_bracketed(text, filter)
    }
}
