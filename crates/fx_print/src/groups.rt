//! Groups and their elements are printed.
ghost use Rattle.std.specs.Prelude.{◌≡◌, ◌++◌, ◌∷◌, List, Option, OnOk, map, codes, string_bytes};
ghost use Rattle.std.specs.List.{flat_map};
ghost use Rattle.fx_algebra.specs.Printed as spec;

use crate::expressions::{is_call, push_bracketed, push_expr};
use crate::words::{push_fixed, push_iri, push_part, push_term, push_variable, push_variables};
use fx_algebra::{Element, Expr, Group, Inline};
use fx_terms::{Items, Memory, Pattern, Term};

/// A group: its elements between braces.
#[cycle(print)]
pub fn push_group(text: &mut String, group: &Group) -> Result<(), Memory>
    ensures { OnOk result (string_bytes text.new ≡ string_bytes text.old ++ spec.spaced (spec.group_words group.now)) }
{
    push_fixed(text, "{")?;
    push_elements(text, group.elements.as_slice())?;
    push_fixed(text, "}")
}

#[cycle(print)]
fn push_elements(text: &mut String, elements: &[Element]) -> Result<(), Memory>
    ensures { OnOk result (string_bytes text.new ≡ string_bytes text.old ++ spec.spaced (flat_map (λ words. words) (map spec.element_words elements.now))) }
{
    for element in elements {
        push_element(text, element)?;
    }
    Ok(())
}

/// An element of a group.
#[cycle(print)]
pub(crate) fn push_element(text: &mut String, element: &Element) -> Result<(), Memory>
    ensures { OnOk result (string_bytes text.new ≡ string_bytes text.old ++ spec.spaced (spec.element_words element.now)) }
{
    match element {
        Element::Triple(pattern) => push_pattern(text, pattern),
        Element::Filter(expr) => push_filter(text, expr),
        Element::Optional(group) => {
            push_fixed(text, "OPTIONAL")?;
            push_group(text, group)
        }
        Element::Union(groups) => push_union(text, groups.as_slice()),
        Element::Minus(group) => {
            push_fixed(text, "MINUS")?;
            push_group(text, group)
        }
        Element::Bind { expr, name } => {
            push_fixed(text, "BIND")?;
            push_fixed(text, "(")?;
            push_expr(text, expr)?;
            push_fixed(text, "AS")?;
            push_variable(text, name)?;
            push_fixed(text, ")")
        }
        Element::Values(inline) => {
            push_fixed(text, "VALUES")?;
            push_block(text, inline)
        }
        Element::Service { silent, iri, group } => {
            push_fixed(text, "SERVICE")?;
            push_silence(text, *silent)?;
            push_iri(text, iri)?;
            push_group(text, group)
        }
    }
}

// Groups with UNION between.
#[cycle(print)]
fn push_union(text: &mut String, groups: &[Group]) -> Result<(), Memory>
    ensures { OnOk result (string_bytes text.new ≡ string_bytes text.old ++ spec.spaced (spec.separated (spec.fixed (codes "UNION")) (map spec.group_words groups.now))) }
{
    let mut is_first = true;
    for group in groups {
        if is_first {
            is_first = false;
        } else {
            push_fixed(text, "UNION")?;
        }
        push_group(text, group)?;
    }
    Ok(())
}

fn push_pattern(text: &mut String, pattern: &Pattern) -> Result<(), Memory>
    ensures { OnOk result (string_bytes text.new ≡ string_bytes text.old ++ spec.spaced (spec.pattern_words pattern.now)) }
{
    push_part(text, &pattern.subject)?;
    push_part(text, &pattern.predicate)?;
    push_part(text, &pattern.object)?;
    push_fixed(text, ".")
}

#[tactic(auto, unfolding(fx_algebra::specs::Printed::condition))]
fn push_filter(text: &mut String, expr: &Expr) -> Result<(), Memory>
    ensures { OnOk result (string_bytes text.new ≡ string_bytes text.old ++ spec.spaced (spec.fixed (codes "FILTER") ∷ spec.condition (spec.printed expr.now))) }
{
    push_fixed(text, "FILTER")?;
    if is_call(expr) {
        push_expr(text, expr)
    } else {
        push_bracketed(text, expr)
    }
}

fn push_silence(text: &mut String, silent: bool) -> Result<(), Memory>
    ensures { OnOk result (string_bytes text.new ≡ string_bytes text.old ++ spec.spaced (spec.silence silent)) }
{
    if silent {
        push_fixed(text, "SILENT")?;
    }
    Ok(())
}

/// The columns and rows of VALUES.
#[tactic(auto, unfolding(fx_algebra::specs::Printed::block))]
pub(crate) fn push_block(text: &mut String, inline: &Inline) -> Result<(), Memory>
    ensures { OnOk result (string_bytes text.new ≡ string_bytes text.old ++ spec.spaced (spec.block inline.now)) }
{
    push_fixed(text, "(")?;
    push_variables(text, inline.columns.as_slice())?;
    push_fixed(text, ")")?;
    push_fixed(text, "{")?;
    push_rows(text, inline.rows.as_slice())?;
    push_fixed(text, "}")
}

fn push_rows(text: &mut String, rows: &[Items<Option<Term>>]) -> Result<(), Memory>
    ensures { OnOk result (string_bytes text.new ≡ string_bytes text.old ++ spec.spaced (flat_map spec.row_words rows.now)) }
{
    for row in rows {
        push_row(text, row.as_slice())?;
    }
    Ok(())
}

fn push_row(text: &mut String, row: &[Option<Term>]) -> Result<(), Memory>
    ensures { OnOk result (string_bytes text.new ≡ string_bytes text.old ++ spec.spaced (spec.row_words row.now)) }
{
    push_fixed(text, "(")?;
    push_values(text, row)?;
    push_fixed(text, ")")
}

fn push_values(text: &mut String, row: &[Option<Term>]) -> Result<(), Memory>
    ensures { OnOk result (string_bytes text.new ≡ string_bytes text.old ++ spec.spaced (map spec.value_word row.now)) }
{
    for value in row {
        push_value(text, value)?;
    }
    Ok(())
}

fn push_value(text: &mut String, value: &Option<Term>) -> Result<(), Memory>
    ensures { OnOk result (string_bytes text.new ≡ string_bytes text.old ++ (32 ∷ spec.spelling (spec.value_word value.now))) }
{
    match value {
        None => push_fixed(text, "UNDEF"),
        Some(term) => push_term(text, term),
    }
}
