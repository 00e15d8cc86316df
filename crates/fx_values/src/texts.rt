//! The text of a block.
ghost use Rattle.std.specs.Prelude.{◌≡◌, ◌++◌, ◌∷◌, [], codes, IfOk, map, OnOk, pos, Some, string_bytes};
ghost use Rattle.std.specs.List.{flat_map};
ghost use Rattle.std.specs.Option.{option_copied};
ghost use Rattle.fx_algebra.specs.Printed.{condition, fixed, joined, part_word, pattern_words, printed, row_words, spaced, spelling, value_word, variable};
ghost use Rattle.fx_algebra.specs.Solutions.{term_of};
ghost use Rattle.fx_algebra.specs.Values.{integer};
ghost use Rattle.fx_renaming.specs.Branches.{bound_part, bound_pattern};
ghost use Rattle.fx_values.specs.Sent as spec;
ghost use Rattle.fx_values.specs.Texts.{filter_words, triple_words, unit_words};
ghost use Rattle.fx_values.specs.Values.{named, sent_name};

use crate::columns::Columns;
use crate::filters::renamed_filter;
use crate::names::{Names, push_sent};
use fx_algebra::{Expr, Row, Solution, Unit};
use fx_print::expressions::{is_call, push_bracketed, push_expr};
use fx_print::words::{push_fixed, push_term, push_variable, without_the_first_space};
use fx_terms::datatypes::XSD_INTEGER;
use fx_terms::{Iri, Literal, LiteralError, Memory, Name, Pattern, PatternTerm, Term};
use itoa::Buffer;
use std::alloc::Global;

/// The text that asks for rows of a unit whose variables and columns these are.
pub(crate) fn print_block(
    alloc: Global,
    unit: &Unit,
    names: &Names,
    columns: &Columns,
    rows: &[(u32, Row)],
) -> Result<String, Memory>
    ensures { IfOk result (λ text. string_bytes text ≡ joined (spec.all_words unit.now names.now columns.now rows.now)) }
{
    let mut text = String::new(alloc);
    push_all(alloc, &mut text, unit, names, columns, rows)?;
    without_the_first_space(alloc, text)
}

fn push_all(
    alloc: Global,
    text: &mut String,
    unit: &Unit,
    names: &Names,
    columns: &Columns,
    rows: &[(u32, Row)],
) -> Result<(), Memory>
    ensures { OnOk result (string_bytes text.new ≡ string_bytes text.old ++ spaced (spec.all_words unit.now names.now columns.now rows.now)) }
{
    push_head(text, columns)?;
    push_block(alloc, text, names, columns, rows)?;
    push_unit(alloc, text, names, unit)?;
    push_fixed(text, "}")
}

// What stands before the block.
fn push_head(text: &mut String, columns: &Columns) -> Result<(), Memory>
    ensures { OnOk result (string_bytes text.new ≡ string_bytes text.old ++ spaced (spec.head_words columns.now)) }
{
    push_fixed(text, "SELECT")?;
    push_columns(text, columns)?;
    push_fixed(text, "WHERE")?;
    push_fixed(text, "{")?;
    push_fixed(text, "VALUES")
}

fn push_columns(text: &mut String, columns: &Columns) -> Result<(), Memory>
    ensures { OnOk result (string_bytes text.new ≡ string_bytes text.old ++ spaced (spec.column_words columns.now)) }
{
    push_variable(text, &columns.number)?;
    push_others(text, columns.sent.as_slice())
}

fn push_others(text: &mut String, sent: &[(Name, Name)]) -> Result<(), Memory>
    ensures { OnOk result (string_bytes text.new ≡ string_bytes text.old ++ spaced (map (λ n. variable n) (spec.others sent.now))) }
{
    for pair in sent {
        push_variable(text, &pair.0)?;
    }
    Ok(())
}

fn push_block(
    alloc: Global,
    text: &mut String,
    names: &Names,
    columns: &Columns,
    rows: &[(u32, Row)],
) -> Result<(), Memory>
    ensures { OnOk result (string_bytes text.new ≡ string_bytes text.old ++ spaced (spec.block_words names.now columns.now rows.now)) }
{
    push_fixed(text, "(")?;
    push_columns(text, columns)?;
    push_fixed(text, ")")?;
    push_fixed(text, "{")?;
    push_rows(alloc, text, names, rows)?;
    push_fixed(text, "}")
}

fn push_rows(
    alloc: Global,
    text: &mut String,
    names: &Names,
    rows: &[(u32, Row)],
) -> Result<(), Memory>
    ensures { OnOk result (string_bytes text.new ≡ string_bytes text.old ++ spaced (spec.rows_words names.now rows.now)) }
{
    for row in rows {
        push_row(alloc, text, names, row)?;
    }
    Ok(())
}

fn push_row(alloc: Global, text: &mut String, names: &Names, row: &(u32, Row)) -> Result<(), Memory>
    ensures { OnOk result (string_bytes text.new ≡ string_bytes text.old ++ spaced (row_words (spec.cells names.now row.now))) }
{
    push_fixed(text, "(")?;
    push_number(alloc, text, row.0)?;
    push_values(text, names.as_slice(), &row.1.solution)?;
    push_fixed(text, ")")
}

// A number as a term.
fn push_number(alloc: Global, text: &mut String, number: u32) -> Result<(), Memory>
    ensures { OnOk result (string_bytes text.new ≡ string_bytes text.old ++ (32 ∷ spelling (value_word (Some (integer (pos number)))))) }
{
    let term = number_term(alloc, number)?;
    push_term(text, &term)
}

#[tactic(auto, unfolding(fx_algebra::specs::Values::integer))]
fn number_term(alloc: Global, number: u32) -> Result<Term, Memory>
    ensures { IfOk result (λ term. term ≡ integer (pos number)) }
{
    let mut buffer = Buffer::new();
    let datatype = Iri::known(alloc, XSD_INTEGER)?;
    match Literal::typed(alloc, buffer.format(number), &datatype) {
        Ok(literal) => Ok(Term::Literal(literal)),
        Err(LiteralError::Memory) => Err(Memory),
        Err(_) => unreachable!(),
    }
}

// The terms that a row has for names, and UNDEF where it has none.
fn push_values(text: &mut String, names: &[Name], row: &Solution) -> Result<(), Memory>
    ensures { OnOk result (string_bytes text.new ≡ string_bytes text.old ++ spaced (map value_word (map (term_of row.now) names.now))) }
{
    for name in names {
        push_value(text, row.get(name))?;
    }
    Ok(())
}

fn push_value(text: &mut String, value: Option<&Term>) -> Result<(), Memory>
    ensures { OnOk result (string_bytes text.new ≡ string_bytes text.old ++ (32 ∷ spelling (value_word (option_copied value.entry)))) }
{
    match value {
        None => push_fixed(text, "UNDEF"),
        Some(term) => push_term(text, term),
    }
}

// The triples and the filters of a unit under the other names.
fn push_unit(alloc: Global, text: &mut String, names: &Names, unit: &Unit) -> Result<(), Memory>
    ensures { OnOk result (string_bytes text.new ≡ string_bytes text.old ++ spaced (unit_words names.now unit.now)) }
{
    push_patterns(text, names, unit.patterns.as_slice())?;
    push_filters(alloc, text, names, unit.filters.as_slice())
}

fn push_patterns(text: &mut String, names: &Names, patterns: &[Pattern]) -> Result<(), Memory>
    ensures { OnOk result (string_bytes text.new ≡ string_bytes text.old ++ spaced (triple_words names.now patterns.now)) }
{
    for pattern in patterns {
        push_pattern(text, names, pattern)?;
    }
    Ok(())
}

fn push_pattern(text: &mut String, names: &Names, pattern: &Pattern) -> Result<(), Memory>
    ensures { OnOk result (string_bytes text.new ≡ string_bytes text.old ++ spaced (pattern_words (bound_pattern (named names.now) [] pattern.now))) }
{
    push_part(text, names, &pattern.subject)?;
    push_part(text, names, &pattern.predicate)?;
    push_part(text, names, &pattern.object)?;
    push_fixed(text, ".")
}

fn push_part(text: &mut String, names: &Names, part: &PatternTerm) -> Result<(), Memory>
    ensures { OnOk result (string_bytes text.new ≡ string_bytes text.old ++ (32 ∷ spelling (part_word (bound_part (named names.now) [] part.now)))) }
{
    match part {
        PatternTerm::Constant(term) => push_term(text, term),
        PatternTerm::Variable(name) => push_other(text, names.place(name)),
    }
}

// A variable under its other name.
fn push_other(text: &mut String, place: usize) -> Result<(), Memory>
    ensures { OnOk result (string_bytes text.new ≡ string_bytes text.old ++ (32 ∷ 63 ∷ sent_name place)) }
{
    text.push_str(" ?")?;
    push_sent(text, place)
}

fn push_filters(
    alloc: Global,
    text: &mut String,
    names: &Names,
    filters: &[Expr],
) -> Result<(), Memory>
    ensures { OnOk result (string_bytes text.new ≡ string_bytes text.old ++ spaced (flat_map (filter_words names.now) filters.now)) }
{
    for filter in filters {
        push_renamed(alloc, text, names, filter)?;
    }
    Ok(())
}

fn push_renamed(
    alloc: Global,
    text: &mut String,
    names: &Names,
    filter: &Expr,
) -> Result<(), Memory>
    ensures { OnOk result (string_bytes text.new ≡ string_bytes text.old ++ spaced (filter_words names.now filter.now)) }
{
    let filter = renamed_filter(alloc, names, filter)?;
    push_filter(text, filter.get())
}

fn push_filter(text: &mut String, filter: &Expr) -> Result<(), Memory>
    ensures { OnOk result (string_bytes text.new ≡ string_bytes text.old ++ spaced (fixed (codes "FILTER") ∷ condition (printed filter.now))) }
{
    push_fixed(text, "FILTER")?;
    push_condition(text, filter)
}

#[tactic(auto, unfolding(fx_algebra::specs::Printed::condition))]
fn push_condition(text: &mut String, filter: &Expr) -> Result<(), Memory>
    ensures { OnOk result (string_bytes text.new ≡ string_bytes text.old ++ spaced (condition (printed filter.now))) }
{
    if is_call(filter) {
        push_expr(text, filter)
    } else {
        push_bracketed(text, filter)
    }
}
