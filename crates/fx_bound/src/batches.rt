//! Batches: several rows asked for in one text.
ghost use Rattle.std.specs.Prelude.{◌≡◌, ◌≤◌, IfOk, IfSome, length, option_map, string_bytes};
ghost use Rattle.fx_grammar.specs.Accepted.{Accepted};
ghost use Rattle.fx_spelling.specs.Units.{IsFit};
ghost use Rattle.fx_bound.specs.Made.{IsMade};
ghost use Rattle.fx_bound.specs.Parts as spec;
ghost use Rattle.fx_bound.specs.Reading.{all_columns};
ghost use Rattle.fx_bound.specs.Sent.{all_words, columns_of_all};
ghost use Rattle.fx_bound.specs.Texts.{HasTerms};

use crate::branches::{Branch, branches_of};
use crate::columns::Columns;
use crate::names::Names;
use crate::texts::print_branches;
use fx_algebra::{Row, Solution, Unit};
use fx_terms::{Items, Memory, Name, Term};
use std::alloc::Global;
use std::marker::Model;

/// Rows that one text asks for with a unit. Contracts see the unit and the rows; the branches and the text follow from these. It is made
/// by `batch_text` alone.
#[derive(Drop)]
pub struct Batch {
    unit: Unit,
    rows: Items<Row>,
    branches: Items<Branch>,
    text: Option<String>,
    columns: Columns,
}

impl Model for Batch {
    ghost use Rattle.std.specs.Coded.{codes};
    ghost use Rattle.std.specs.Prelude.{option_map, string_bytes};
    ghost use Rattle.fx_algebra.specs.contracts.expressions.Expr as expr;
    ghost use Rattle.fx_bound.specs.Parts.{Parts};

    ghost Value = { Parts };

    ghost coded = { Prim.hlevel (codes, expr.the_row.coded) };

    ghost view = { λ b. record { unit = b.unit; rows = b.rows } };

    ghost use Rattle.fx_bound.specs.Made.{IsMade};

    ghost invariant = { λ b. IsMade (record { unit = b.unit; rows = b.rows }) b.branches (option_map (λ t. string_bytes t) b.text) };
}

impl Batch {
    /// The text, or `None` exactly where no branch is left. It is the printed query of the batch, and is accepted as that query. It
    /// takes no memory.
    pub fn text(&self) -> Option<&str>
        ensures exact { option_map (λ t. t.now) result ≡ spec.text_of self.now }
        ensures accepted { IfSome result (λ t. Accepted t.now (spec.query_of self.now)) }
    {
        match &self.text {
            Some(text) => Some(text.as_str()),
            None => None,
        }
    }

    /// The branches of the text, by number. The columns of the text are the names that they have sent, or the one that they have checked.
    /// It takes no memory.
    pub fn branches(&self) -> &[Branch]
        ensures all { result.now ≡ spec.branches_of self.now }
        ensures columns { columns_of_all result.now ≡ all_columns self.now.unit (spec.places self.now) }
        ensures known { spec.IsBatch self.now }
    {
        self.branches.as_slice()
    }

    /// The rows that were handed in.
    pub(crate) fn rows(&self) -> &[Row]
        ensures { result.now ≡ self.now.rows }
    {
        self.rows.as_slice()
    }

    /// Where the branch of each column stands.
    pub(crate) fn columns(&self) -> &Columns {
        &self.columns
    }
}

/// The batch of rows of a unit: each row has a branch, in which its terms stand in the places of the variables that it binds, and variable
/// j of the unit is named `vj_i` otherwise, where i is the row's number. Where none is left the branch has the column `k_i`. A row that
/// puts a literal in the place of a subject or a predicate has no branch, since no triple has one there.
pub fn batch_text(alloc: Global, unit: &Unit, rows: &[Row]) -> Result<Batch, Memory>
    requires fit { IsFit unit.now }
    requires few { length rows.now ≤ 64 }
    ensures { IfOk result (λ batch. batch ≡ record { unit = unit.now; rows = rows.now }) }
{
    known_rows(rows);
    let names = Names::of(alloc, unit.patterns.as_slice())?;
    let _count = names.len();
    let branches = branches_of(alloc, unit, &names, rows)?;
    let text = text_of(alloc, unit, &names, branches.as_slice())?;
    batch_of(alloc, unit, rows, branches, text)
}

fn batch_of(
    alloc: Global,
    unit: &Unit,
    rows: &[Row],
    branches: Items<Branch>,
    text: Option<String>,
) -> Result<Batch, Memory>
    requires { IsMade (record { unit = unit.now; rows = rows.now }) branches (option_map (λ t. string_bytes t) text) }
    ensures { IfOk result (λ batch. batch ≡ record { unit = unit.now; rows = rows.now }) }
{
    let columns = Columns::of(alloc, branches.as_slice())?;
    let rows = copy_rows(alloc, rows)?;
    let unit = unit.copy(alloc)?;
    Ok(Batch {
        unit,
        rows,
        branches,
        text,
        columns,
    })
}

fn text_of(
    alloc: Global,
    unit: &Unit,
    names: &Names,
    branches: &[Branch],
) -> Result<Option<String>, Memory>
    ensures { IfOk result (λ text. option_map (λ t. string_bytes t) text ≡ spec.printed_words (all_words unit.now names.now branches.now) branches.now) }
{
    if branches.is_empty() {
        Ok(None)
    } else {
        Ok(Some(print_branches(alloc, unit, names, branches)?))
    }
}

fn copy_rows(alloc: Global, rows: &[Row]) -> Result<Items<Row>, Memory>
    ensures { IfOk result (λ copies. copies ≡ rows.now) }
{
    let mut copies = Items::new(alloc);
    for row in rows {
        copies.push(row.copy(alloc)?)?;
    }
    Ok(copies)
}

// That the names of rows rise and their terms are what their readers accept. It does nothing.
fn known_rows(rows: &[Row])
    ensures { spec.AreKnown rows.now }
{
    for row in rows {
        known_solution(&row.solution);
    }
}

fn known_solution(solution: &Solution)
    ensures { spec.IsKnown solution.now }
{
    known_pairs(solution.pairs());
}

fn known_pairs(pairs: &[(Name, Term)])
    ensures { HasTerms pairs.now }
{
    for pair in pairs {
        pair.1.known();
    }
}
