//! The rows of a table that is read.
ghost use Rattle.std.specs.Prelude.{◌≡◌, IfOk, IsTrue, true};
ghost use Rattle.serde_json.specs.View.{view, items_view, members_view};
ghost use Rattle.fx_algebra.specs.Solutions.{rises};
ghost use Rattle.fx_results.specs.Answers.{AnswersResults, AnswersAs};
ghost use Rattle.fx_results.specs.Reading as spec;

use crate::columns::Columns;
use crate::faults::{ResultsError, ShapeFault};
use crate::values::term_of;
use fx_algebra::Solution;
use fx_terms::{Name, Term};
use serde_json::{Map, Value};
use std::alloc::Global;

/// The rows that the items of an array are. Each item is gone once its row is read, so memory is that of the items or the rows.
pub(crate) fn rows_of(
    alloc: Global,
    columns: &Columns,
    items: Vec<Value>,
) -> Result<Vec<Solution>, ResultsError>
    ensures { AnswersAs (λ rows. rows.items) result (spec.rows_in columns.now (items_view items.items)) }
{
    let mut rows = Vec::with_capacity(alloc, items.len())?;
    for item in items {
        rows.push(taken_row(alloc, columns, item)?)?;
    }
    Ok(rows)
}

fn taken_row(alloc: Global, columns: &Columns, value: Value) -> Result<Solution, ResultsError>
    ensures { AnswersResults result (spec.row_in columns.now (view value)) }
{
    row_of(alloc, columns, &value)
}

fn row_of(alloc: Global, columns: &Columns, value: &Value) -> Result<Solution, ResultsError>
    ensures { AnswersResults result (spec.row_in columns.now (view value.now)) }
{
    let Some(members) = value.as_object() else {
        return Err(ResultsError::Shape {
            what: ShapeFault::Row,
        });
    };
    if !are_columns(columns, members) {
        return Err(ResultsError::Shape {
            what: ShapeFault::Row,
        });
    }
    let pairs = terms_of(alloc, columns, members)?;
    Ok(Solution::of_rising(pairs))
}

fn are_columns(columns: &Columns, members: &Map<String, Value>) -> bool
    ensures { result ≡ spec.are_columns columns.now (members_view members.now.entries) }
{
    for (name, _) in members {
        if columns.find(name.as_str()).is_none() {
            return false;
        }
    }
    true
}

// The terms of members whose names are columns. The pairs share the columns' texts.
fn terms_of(
    alloc: Global,
    columns: &Columns,
    members: &Map<String, Value>,
) -> Result<Vec<(Name, Term)>, ResultsError>
    requires { spec.are_columns columns.now (members_view members.now.entries) ≡ true }
    ensures terms { AnswersAs (λ pairs. pairs.items) result (spec.terms_in (members_view members.now.entries)) }
    ensures rise { IfOk result (λ pairs. IsTrue (rises pairs.items)) }
{
    let mut pairs = Vec::with_capacity(alloc, members.len())?;
    for (name, value) in members {
        let Some(column) = columns.find(name.as_str()) else {
            unreachable!()
        };
        let term = term_of(alloc, value)?;
        pairs.push((column.copy()?, term))?;
    }
    Ok(pairs)
}
