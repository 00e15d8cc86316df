//! The text of a batch.
ghost use Rattle.std.specs.Prelude.{◌≡◌, ◌++◌, ◌∷◌, [], codes, IfOk, map, OnOk, pos, string_bytes};
ghost use Rattle.std.specs.List.{flat_map};
ghost use Rattle.fx_algebra.specs.Printed.{condition, fixed, in_brackets, joined, part_word, pattern_words, printed, separated, spaced, spelling, term, variable};
ghost use Rattle.fx_algebra.specs.Values.{integer};
ghost use Rattle.fx_renaming.specs.Branches.{bound_part, bound_pattern};
ghost use Rattle.fx_bound.specs.Reading.{named, sent_name};
ghost use Rattle.fx_bound.specs.Sent as spec;

use crate::branches::Branch;
use crate::filters::bound_filter;
use crate::names::{Names, push_sent};
use fx_algebra::{Expr, Unit};
use fx_print::expressions::{is_call, push_bracketed, push_expr};
use fx_print::words::{push_fixed, push_term, push_variable, without_the_first_space};
use fx_terms::{Memory, Name, Pattern, PatternTerm};
use std::alloc::Global;

/// The text that asks for branches of a unit whose variables these are.
pub(crate) fn print_branches(
    alloc: Global,
    unit: &Unit,
    names: &Names,
    branches: &[Branch],
) -> Result<String, Memory>
    ensures { IfOk result (λ text. string_bytes text ≡ joined (spec.all_words unit.now names.now branches.now)) }
{
    let mut text = String::new(alloc);
    push_all(alloc, &mut text, unit, names, branches)?;
    without_the_first_space(alloc, text)
}

fn push_all(
    alloc: Global,
    text: &mut String,
    unit: &Unit,
    names: &Names,
    branches: &[Branch],
) -> Result<(), Memory>
    ensures { OnOk result (string_bytes text.new ≡ string_bytes text.old ++ spaced (spec.all_words unit.now names.now branches.now)) }
{
    push_fixed(text, "SELECT")?;
    push_columns(text, branches)?;
    push_fixed(text, "WHERE")?;
    push_fixed(text, "{")?;
    push_branches(alloc, text, unit, names, branches)?;
    push_fixed(text, "}")
}

fn push_columns(text: &mut String, branches: &[Branch]) -> Result<(), Memory>
    ensures { OnOk result (string_bytes text.new ≡ string_bytes text.old ++ spaced (spec.column_words branches.now)) }
{
    for branch in branches {
        push_columns_of(text, branch)?;
    }
    Ok(())
}

fn push_columns_of(text: &mut String, branch: &Branch) -> Result<(), Memory>
    ensures { OnOk result (string_bytes text.new ≡ string_bytes text.old ++ spaced (map (λ n. variable n) (spec.columns branch.now))) }
{
    match &branch.checked {
        Some(name) => push_variable(text, name),
        None => push_sent_names(text, branch.sent.as_slice()),
    }
}

fn push_sent_names(text: &mut String, sent: &[(Name, Name)]) -> Result<(), Memory>
    ensures { OnOk result (string_bytes text.new ≡ string_bytes text.old ++ spaced (map (λ n. variable n) (map (λ e. e.0) sent.now))) }
{
    for pair in sent {
        push_variable(text, &pair.0)?;
    }
    Ok(())
}

// The branches, with UNION between.
fn push_branches(
    alloc: Global,
    text: &mut String,
    unit: &Unit,
    names: &Names,
    branches: &[Branch],
) -> Result<(), Memory>
    ensures { OnOk result (string_bytes text.new ≡ string_bytes text.old ++ spaced (separated (fixed (codes "UNION")) (map (spec.branch_words unit.now names.now) branches.now))) }
{
    let mut is_first = true;
    for branch in branches {
        if is_first {
            is_first = false;
        } else {
            push_fixed(text, "UNION")?;
        }
        push_branch(alloc, text, unit, names, branch)?;
    }
    Ok(())
}

fn push_branch(
    alloc: Global,
    text: &mut String,
    unit: &Unit,
    names: &Names,
    branch: &Branch,
) -> Result<(), Memory>
    ensures { OnOk result (string_bytes text.new ≡ string_bytes text.old ++ spaced (spec.branch_words unit.now names.now branch.now)) }
{
    push_fixed(text, "{")?;
    push_elements(alloc, text, unit, names, branch)?;
    push_fixed(text, "}")
}

// The triples of a branch, its filters, and what says that it has a solution.
fn push_elements(
    alloc: Global,
    text: &mut String,
    unit: &Unit,
    names: &Names,
    branch: &Branch,
) -> Result<(), Memory>
    ensures { OnOk result (string_bytes text.new ≡ string_bytes text.old ++ spaced (spec.element_words unit.now names.now branch.now)) }
{
    push_patterns(text, names, branch, unit.patterns.as_slice())?;
    push_filters(alloc, text, names, branch, unit.filters.as_slice())?;
    push_check(text, &branch.checked)
}

fn push_patterns(
    text: &mut String,
    names: &Names,
    branch: &Branch,
    patterns: &[Pattern],
) -> Result<(), Memory>
    ensures { OnOk result (string_bytes text.new ≡ string_bytes text.old ++ spaced (flat_map (λ p. pattern_words (bound_pattern (named names.now branch.now.number) branch.now.row.solution p)) patterns.now)) }
{
    for pattern in patterns {
        push_pattern(text, names, branch, pattern)?;
    }
    Ok(())
}

fn push_pattern(
    text: &mut String,
    names: &Names,
    branch: &Branch,
    pattern: &Pattern,
) -> Result<(), Memory>
    ensures { OnOk result (string_bytes text.new ≡ string_bytes text.old ++ spaced (pattern_words (bound_pattern (named names.now branch.now.number) branch.now.row.solution pattern.now))) }
{
    push_part(text, names, branch, &pattern.subject)?;
    push_part(text, names, branch, &pattern.predicate)?;
    push_part(text, names, branch, &pattern.object)?;
    push_fixed(text, ".")
}

fn push_part(
    text: &mut String,
    names: &Names,
    branch: &Branch,
    part: &PatternTerm,
) -> Result<(), Memory>
    ensures { OnOk result (string_bytes text.new ≡ string_bytes text.old ++ (32 ∷ spelling (part_word (bound_part (named names.now branch.now.number) branch.now.row.solution part.now)))) }
{
    match part {
        PatternTerm::Constant(term) => push_term(text, term),
        PatternTerm::Variable(name) => match branch.row.solution.get(name) {
            Some(term) => push_term(text, term),
            None => push_other(text, names.place(name), branch.number),
        },
    }
}

// A variable under its other name.
fn push_other(text: &mut String, place: usize, number: u32) -> Result<(), Memory>
    ensures { OnOk result (string_bytes text.new ≡ string_bytes text.old ++ (32 ∷ 63 ∷ sent_name place number)) }
{
    text.push_str(" ?")?;
    push_sent(text, place, number)
}

fn push_filters(
    alloc: Global,
    text: &mut String,
    names: &Names,
    branch: &Branch,
    filters: &[Expr],
) -> Result<(), Memory>
    ensures { OnOk result (string_bytes text.new ≡ string_bytes text.old ++ spaced (spec.filter_words (named names.now branch.now.number) branch.now.row.solution filters.now)) }
{
    for filter in filters {
        push_bound(alloc, text, names, branch, filter)?;
    }
    Ok(())
}

// A filter with the terms of the branch's row in it.
fn push_bound(
    alloc: Global,
    text: &mut String,
    names: &Names,
    branch: &Branch,
    filter: &Expr,
) -> Result<(), Memory>
    ensures { OnOk result (string_bytes text.new ≡ string_bytes text.old ++ spaced (spec.bound_words (named names.now branch.now.number) branch.now.row.solution filter.now)) }
{
    let filter = bound_filter(alloc, names, branch.number, &branch.row.solution, filter)?;
    push_filter(text, filter.get())
}

fn push_filter(text: &mut String, filter: &Expr) -> Result<(), Memory>
    ensures { OnOk result (string_bytes text.new ≡ string_bytes text.old ++ spaced (fixed (codes "FILTER") ∷ condition (printed filter.now))) }
{
    push_fixed(text, "FILTER")?;
    push_condition(text, filter)
}

#[tactic(auto, unfolding(fx_algebra::specs::Printed::condition))]
fn push_condition(text: &mut String, filter: &Expr) -> Result<(), Memory>
    ensures { OnOk result (string_bytes text.new ≡ string_bytes text.old ++ spaced (condition (printed filter.now))) }
{
    if is_call(filter) {
        push_expr(text, filter)
    } else {
        push_bracketed(text, filter)
    }
}

fn push_one(text: &mut String) -> Result<(), Memory>
    ensures { OnOk result (string_bytes text.new ≡ string_bytes text.old ++ (32 ∷ spelling (term (integer (pos 1))))) }
{
    push_fixed(text, "\"1\"^^<http://www.w3.org/2001/XMLSchema#integer>")
}

// What says that a branch without a variable has a solution.
fn push_check(text: &mut String, checked: &Option<Name>) -> Result<(), Memory>
    ensures { OnOk result (string_bytes text.new ≡ string_bytes text.old ++ spaced (spec.check_words checked.now)) }
{
    match checked {
        None => Ok(()),
        Some(name) => {
            push_fixed(text, "BIND")?;
            push_one_as(text, name)
        }
    }
}

fn push_one_as(text: &mut String, name: &Name) -> Result<(), Memory>
    ensures { OnOk result (string_bytes text.new ≡ string_bytes text.old ++ spaced (in_brackets (term (integer (pos 1)) ∷ fixed (codes "AS") ∷ variable name.now ∷ []))) }
{
    push_fixed(text, "(")?;
    push_one(text)?;
    push_fixed(text, "AS")?;
    push_variable(text, name)?;
    push_fixed(text, ")")
}
