//! The document of an answer.
ghost use Rattle.std.specs.Prelude.{◌≡◌, ◌++◌, All, IfOk, IsUtf8, Ok, OnOk, map, true};
ghost use Rattle.serde_json.specs.Data.{string};
ghost use Rattle.fx_terms.specs.Names.{IsName};
ghost use Rattle.fx_results.specs.Documents as spec;
ghost use Rattle.fx_results.specs.KnownAnswers.{IsKnown, IsKnownRow};
ghost use Rattle.fx_results.specs.Meanings.{Denotes, binds_columns};
ghost use Rattle.fx_results.specs.Reading.{read_results};
ghost use Rattle.fx_results.specs.Tokens.{data_tokens};

use crate::terms::write_term;
use fx_algebra::{Answer, Solution};
use fx_terms::{Memory, Name};
use json::Writer;
use std::alloc::{AllocError, Global};

/// The document of an answer (SPARQL 1.1 Query Results JSON Format, sections 3.1, 3.2 and 3.2.2).
///
/// It is compact text in UTF-8 with no line end behind it, and the members of each object stand in the order of their
/// names' code points. A row has a member for each variable that it binds, and none for the others.
///
/// The one error is want of memory.
pub fn write(alloc: Global, answer: &Answer) -> Result<Vec<u8>, Memory>
    ensures document { IfOk result (λ bytes. bytes.items ≡ spec.document answer.now) }
    ensures utf8 { IfOk result (λ bytes. IsUtf8 bytes.items) }

    // Where the columns are distinct and each row binds columns alone, it reads back as the answer, and means it.
    ensures back { binds_columns answer.now ≡ true → IfOk result (λ bytes. read_results bytes.items ≡ Ok answer.now) }
    ensures means { binds_columns answer.now ≡ true → IfOk result (λ bytes. Denotes bytes.items answer.now) }
{
    let mut text = Writer::new(Vec::new(alloc));
    write_answer(&mut text, answer)?;
    Ok(text.into_inner())
}

fn write_answer(text: &mut Writer, answer: &Answer) -> Result<(), AllocError>
    ensures tokens { OnOk result (text.new.tokens ≡ text.old.tokens ++ data_tokens (spec.answer_data answer.now)) }
    ensures before { OnOk result (text.new.before ≡ text.old.before) }
    ensures known { OnOk result (IsKnown answer.now) }
{
    match answer {
        Answer::Table { columns, rows } => write_table(text, columns.as_slice(), rows.as_slice()),
        Answer::Truth(truth) => write_truth(text, *truth),
    }
}

fn write_truth(text: &mut Writer, truth: bool) -> Result<(), AllocError>
    ensures tokens { OnOk result (text.new.tokens ≡ text.old.tokens ++ data_tokens (spec.truth_data truth)) }
    ensures before { OnOk result (text.new.before ≡ text.old.before) }
{
    text.begin_object()?;
    text.key("boolean")?;
    text.boolean(truth)?;
    text.key("head")?;
    text.begin_object()?;
    text.end_object()?;
    text.end_object()
}

fn write_table(text: &mut Writer, columns: &[Name], rows: &[Solution]) -> Result<(), AllocError>
    ensures tokens { OnOk result (text.new.tokens ≡ text.old.tokens ++ data_tokens (spec.table_data columns.now rows.now)) }
    ensures before { OnOk result (text.new.before ≡ text.old.before) }
    ensures names { OnOk result (All IsName columns.now) }
    ensures rows { OnOk result (All IsKnownRow rows.now) }
{
    text.begin_object()?;
    text.key("head")?;
    write_head(text, columns)?;
    text.key("results")?;
    write_results(text, rows)?;
    text.end_object()
}

fn write_head(text: &mut Writer, columns: &[Name]) -> Result<(), AllocError>
    ensures tokens { OnOk result (text.new.tokens ≡ text.old.tokens ++ data_tokens (spec.head_data columns.now)) }
    ensures before { OnOk result (text.new.before ≡ text.old.before) }
    ensures known { OnOk result (All IsName columns.now) }
{
    text.begin_object()?;
    text.key("vars")?;
    write_names(text, columns)?;
    text.end_object()
}

fn write_results(text: &mut Writer, rows: &[Solution]) -> Result<(), AllocError>
    ensures tokens { OnOk result (text.new.tokens ≡ text.old.tokens ++ data_tokens (spec.results_data rows.now)) }
    ensures before { OnOk result (text.new.before ≡ text.old.before) }
    ensures known { OnOk result (All IsKnownRow rows.now) }
{
    text.begin_object()?;
    text.key("bindings")?;
    write_rows(text, rows)?;
    text.end_object()
}

fn write_names(text: &mut Writer, names: &[Name]) -> Result<(), AllocError>
    ensures tokens { OnOk result (text.new.tokens ≡ text.old.tokens ++ data_tokens (spec.array_of (map string names.now))) }
    ensures before { OnOk result (text.new.before ≡ text.old.before) }
    ensures known { OnOk result (All IsName names.now) }
{
    text.begin_array()?;
    for name in names {
        text.string(name.text())?;
    }
    text.end_array()
}

// One row after another, so that there is never more than the rows and the text.
fn write_rows(text: &mut Writer, rows: &[Solution]) -> Result<(), AllocError>
    ensures tokens { OnOk result (text.new.tokens ≡ text.old.tokens ++ data_tokens (spec.array_of (map spec.row_data rows.now))) }
    ensures before { OnOk result (text.new.before ≡ text.old.before) }
    ensures known { OnOk result (All IsKnownRow rows.now) }
{
    text.begin_array()?;
    for row in rows {
        write_row(text, row)?;
    }
    text.end_array()
}

fn write_row(text: &mut Writer, row: &Solution) -> Result<(), AllocError>
    ensures tokens { OnOk result (text.new.tokens ≡ text.old.tokens ++ data_tokens (spec.row_data row.now)) }
    ensures before { OnOk result (text.new.before ≡ text.old.before) }
    ensures known { OnOk result (IsKnownRow row.now) }
{
    let pairs = row.pairs();
    text.begin_object()?;
    for pair in pairs {
        text.key(pair.0.text())?;
        write_term(text, &pair.1)?;
    }
    text.end_object()
}
