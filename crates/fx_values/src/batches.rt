//! Batches: several rows asked for in one VALUES block.
ghost use Rattle.std.specs.Prelude.{◌≡◌, ◌≤◌, IfOk, IfSome, length, map, option_map, string_bytes};
ghost use Rattle.fx_grammar.specs.Accepted.{Accepted};
ghost use Rattle.fx_spelling.specs.Units.{IsFit};
ghost use Rattle.fx_founds.specs.Uniting.{branches};
ghost use Rattle.fx_values.specs.Parts as spec;
ghost use Rattle.fx_values.specs.Parts.{printed_words};
ghost use Rattle.fx_values.specs.Sent.{all_words};
ghost use Rattle.fx_values.specs.Texts.{HasTerms};
ghost use Rattle.fx_values.specs.Values.{unit_names};

use crate::asked::asked_rows;
use crate::columns::Columns;
use crate::names::Names;
use crate::texts::print_block;
use fx_algebra::{Row, Solution, Unit};
use fx_terms::{Items, Memory, Name, Term};
use std::alloc::Global;
use std::marker::Model;

/// Rows that one VALUES block asks for with a unit. Contracts see the unit and the rows that the block has, each with its number; the
/// text follows from these. It is made by `values_text` alone.
#[derive(Drop)]
pub struct ValuesBatch {
    unit: Unit,
    names: Items<Name>,
    columns: Columns,
    rows: Items<(u32, Row)>,
    text: Option<String>,
}

impl Model for ValuesBatch {
    ghost use Rattle.std.specs.Coded.{codes};
    ghost use Rattle.std.specs.Prelude.{map, option_map, string_bytes};
    ghost use Rattle.fx_algebra.specs.contracts.expressions.Expr as expr;
    ghost use Rattle.fx_values.specs.Parts.{Parts, place_by};

    ghost Value = { Parts };

    ghost coded = { Prim.hlevel (codes, expr.the_row.coded) };

    ghost view = { λ b. record { unit = b.unit; places = map place_by b.rows } };

    ghost use Rattle.fx_values.specs.Parts.{IsMade};

    ghost invariant = { λ b. IsMade (record { unit = b.unit; places = map place_by b.rows }) b.names b.columns (option_map (λ t. string_bytes t) b.text) };
}

impl ValuesBatch {
    /// The text, or `None` exactly where no row is left. It is the printed query of the block, and is accepted as that query. It takes no
    /// memory.
    pub fn text(&self) -> Option<&str>
        ensures exact { option_map (λ t. t.now) result ≡ spec.text_of self.now }
        ensures accepted { IfSome result (λ t. Accepted t.now (spec.query_of self.now)) }
    {
        match &self.text {
            Some(text) => Some(text.as_str()),
            None => None,
        }
    }

    /// The unit's variables by their numbers: the column of variable j is `vj`, and that of the rows' numbers is `k`. It takes no memory.
    pub fn names(&self) -> &[Name]
        ensures { result.now ≡ unit_names self.now.unit }
    {
        self.names.as_slice()
    }

    /// The rows that the block has, each with its number among those that were handed in. It takes no memory.
    pub fn rows(&self) -> &[(u32, Row)]
        ensures all { map spec.place_by result.now ≡ self.now.places }
        ensures known { spec.IsValues self.now }
    {
        self.rows.as_slice()
    }

    /// Its columns.
    pub(crate) fn columns(&self) -> &Columns
        ensures { result.now ≡ spec.columns_of self.now.unit }
    {
        &self.columns
    }
}

/// The batch of rows of a unit: a block has each row's number, from 0, and the row's term for each variable of the unit, or UNDEF, and the
/// unit's patterns and filters stand behind it, in which variable j is named `vj`. A row that puts a literal in the place of a subject or a
/// predicate is left out, since no triple has one there, and the others keep their numbers.
pub fn values_text(alloc: Global, unit: &Unit, rows: &[Row]) -> Result<ValuesBatch, Memory>
    requires fit { IsFit unit.now }
    requires few { length rows.now ≤ 64 }
    ensures { IfOk result (λ batch. batch ≡ record { unit = unit.now; places = branches unit.now rows.now }) }
{
    known_rows(rows);
    let variables = Names::of(alloc, unit.patterns.as_slice())?;
    let _count = variables.len();
    let columns = Columns::of(alloc, &variables)?;
    let asked = asked_rows(alloc, unit, rows)?;
    let text = text_of(alloc, unit, &variables, &columns, asked.as_slice())?;
    let names = variables.items(alloc)?;
    let unit = unit.copy(alloc)?;
    Ok(ValuesBatch {
        unit,
        names,
        columns,
        rows: asked,
        text,
    })
}

fn text_of(
    alloc: Global,
    unit: &Unit,
    names: &Names,
    columns: &Columns,
    rows: &[(u32, Row)],
) -> Result<Option<String>, Memory>
    ensures { IfOk result (λ text. option_map (λ t. string_bytes t) text ≡ printed_words (all_words unit.now names.now columns.now rows.now) rows.now) }
{
    if rows.is_empty() {
        Ok(None)
    } else {
        Ok(Some(print_block(alloc, unit, names, columns, rows)?))
    }
}

// That the names of rows rise and their terms are what their readers accept. It does nothing.
fn known_rows(rows: &[Row])
    ensures { spec.AreKnown rows.now }
{
    for row in rows {
        known_solution(&row.solution);
    }
}

fn known_solution(solution: &Solution)
    ensures { spec.IsKnown solution.now }
{
    known_pairs(solution.pairs());
}

fn known_pairs(pairs: &[(Name, Term)])
    ensures { HasTerms pairs.now }
{
    for pair in pairs {
        pair.1.known();
    }
}
