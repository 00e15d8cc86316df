//! Answers.
ghost use Rattle.std.specs.Prelude.{◌≡◌, IfOk};
ghost use Rattle.fx_algebra.specs.Answers.{form_answer, selected};
ghost use Rattle.fx_algebra.specs.declared.answers.Answer.TheVariants.{Table};

use crate::selections::sequence;
use fx_algebra::{Answer, Form, Query, Solution};
use fx_terms::{Items, Memory, Name};
use std::alloc::Global;

/// The answer of a query from the rows of its group (SPARQL 1.1 sections 16.1 and 16.3): the table of its columns with their
/// sequence, or whether there is a row.
pub fn answer_of_rows(alloc: Global, query: &Query, rows: &[Solution]) -> Result<Answer, Memory>
    ensures { IfOk result (λ answer. answer ≡ form_answer query.now query.now.form rows.now) }
{
    match &query.form {
        Form::Select { distinct, columns } => {
            table(alloc, query, *distinct, columns.as_slice(), rows)
        }
        Form::Ask => Ok(Answer::Truth(!rows.is_empty())),
    }
}

// The table of columns with the sequence of rows.
fn table(
    alloc: Global,
    query: &Query,
    is_distinct: bool,
    columns: &[Name],
    rows: &[Solution],
) -> Result<Answer, Memory>
    ensures { IfOk result (λ answer. answer ≡ Table columns.now (selected query.now is_distinct columns.now rows.now)) }
{
    let rows = sequence(alloc, query, is_distinct, columns, rows)?;
    let columns = copy_names(alloc, columns)?;
    Ok(Answer::Table {
        columns: Items::from_vec(columns),
        rows: Items::from_vec(rows),
    })
}

fn copy_names(alloc: Global, names: &[Name]) -> Result<Vec<Name>, Memory>
    ensures { IfOk result (λ copies. copies.items ≡ names.now) }
{
    let mut copies = Vec::with_capacity(alloc, names.len())?;
    for name in names {
        copies.push(name.copy()?)?;
    }
    Ok(copies)
}
