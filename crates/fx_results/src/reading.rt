//! The answer that a document tells.
ghost use Rattle.std.specs.Prelude.{◌≡◌, codes, option_map};
ghost use Rattle.std.specs.Option.{ok_or};
ghost use Rattle.serde_json.specs.Find.{as_array, get};
ghost use Rattle.serde_json.specs.View.{view, items_view};
ghost use Rattle.fx_results.specs.Answers.{AnswersResults, AnswersAs};
ghost use Rattle.fx_results.specs.Reading as spec;
ghost use Rattle.fx_results.specs.declared.faults.ResultsError.TheVariants as error;
ghost use Rattle.fx_results.specs.declared.faults.ShapeFault.TheVariants as fault;

use crate::bindings::rows_of;
use crate::columns::Columns;
use crate::faults::{ResultsError, ShapeFault};
use fx_algebra::Answer;
use fx_terms::Items;
use serde_json::Value;
use std::alloc::Global;
use std::mem;

/// The answer that a document tells (SPARQL 1.1 Query Results JSON Format, sections 3.1 to 3.3), or the first fault:
/// `ResultsError` says where each comes, and in which order.
///
/// Members of any object that this format does not name are passed over. Where a name stands twice in an object, its last
/// value counts.
pub fn read(alloc: Global, bytes: &[u8]) -> Result<Answer, ResultsError>
    ensures { AnswersResults result (spec.read_results bytes.now) }
{
    let mut value = value_of(alloc, bytes)?;
    answer_of(alloc, &mut value)
}

fn value_of(alloc: Global, bytes: &[u8]) -> Result<Value, ResultsError>
    ensures { AnswersAs view result (spec.data_in bytes.now) }
{
    match Value::from_slice(alloc, bytes) {
        Ok(value) => Ok(value),
        Err(e) => {
            if e.is_memory() {
                Err(ResultsError::Memory)
            } else {
                Err(ResultsError::BadJson)
            }
        }
    }
}

// The rows are taken out of the value, so that each is gone once it is read.
fn answer_of(alloc: Global, value: &mut Value) -> Result<Answer, ResultsError>
    ensures { AnswersResults result (spec.answer_in (view value.old)) }
{
    if !is_root(value) {
        return Err(ResultsError::Shape {
            what: ShapeFault::Root,
        });
    }
    if !has_head(value) {
        return Err(ResultsError::Shape {
            what: ShapeFault::Head,
        });
    }
    if let Some(truth) = value.get("boolean") {
        return truth_of(truth);
    }
    table_of(alloc, value)
}

fn is_root(value: &Value) -> bool
    ensures { result ≡ spec.is_root (view value.now) }
{
    value.is_object() && !(value.get("boolean").is_some() && value.get("results").is_some())
}

fn has_head(value: &Value) -> bool
    ensures { result ≡ spec.is_head (get (codes "head") (view value.now)) }
{
    match value.get("head") {
        Some(head) => head.is_object(),
        None => false,
    }
}

fn truth_of(value: &Value) -> Result<Answer, ResultsError>
    ensures { AnswersResults result (spec.truth_of (view value.now)) }
{
    match value.as_bool() {
        Some(truth) => Ok(Answer::Truth(truth)),
        None => Err(ResultsError::Shape {
            what: ShapeFault::Truth,
        }),
    }
}

fn table_of(alloc: Global, value: &mut Value) -> Result<Answer, ResultsError>
    ensures { AnswersResults result (spec.table_in (view value.old)) }
{
    let columns = columns_of(alloc, value)?;
    let bindings = bindings_in(alloc, value)?;
    let rows = rows_of(alloc, &columns, bindings)?;
    Ok(Answer::Table {
        columns: Items::from_vec(columns.into_names()),
        rows: Items::from_vec(rows),
    })
}

fn columns_of(alloc: Global, value: &Value) -> Result<Columns, ResultsError>
    ensures { AnswersResults result (spec.columns_in (view value.now)) }
{
    let Some(items) = vars_in(value) else {
        return Err(ResultsError::Shape {
            what: ShapeFault::Columns,
        });
    };
    Columns::read(alloc, items)
}

fn vars_in(value: &Value) -> Option<&[Value]>
    ensures { option_map (λ items. items_view items.now) result ≡ spec.vars_in (view value.now) }
{
    items_at(value.get("head")?, "vars")
}

// The items of `bindings`, which `value` loses.
fn bindings_in(alloc: Global, value: &mut Value) -> Result<Vec<Value>, ResultsError>
    ensures { AnswersAs (λ items. items_view items.items) result (spec.bindings_in (view value.old)) }
{
    match value.get_mut("results") {
        Some(results) => bindings_of(alloc, results),
        None => Err(ResultsError::Shape {
            what: ShapeFault::Results,
        }),
    }
}

fn bindings_of(alloc: Global, value: &mut Value) -> Result<Vec<Value>, ResultsError>
    ensures { AnswersAs (λ items. items_view items.items) result (spec.bindings_of (view value.old)) }
{
    if !value.is_object() {
        return Err(ResultsError::Shape {
            what: ShapeFault::Results,
        });
    }
    match value.get_mut("bindings") {
        Some(bindings) => items_of(alloc, bindings),
        None => Err(no_bindings()),
    }
}

fn no_bindings() -> ResultsError
    ensures { result ≡ error.Shape fault.Bindings }
{
    ResultsError::Shape {
        what: ShapeFault::Bindings,
    }
}

fn items_of(alloc: Global, value: &mut Value) -> Result<Vec<Value>, ResultsError>
    ensures { AnswersAs (λ items. items_view items.items) result (ok_or (as_array (view value.old)) (error.Shape fault.Bindings)) }
{
    match value.as_array_mut() {
        Some(items) => Ok(mem::replace(items, Vec::new(alloc))),
        None => Err(no_bindings()),
    }
}

// The items of the array that a member is.
fn items_at<'v>(value: &'v Value, name: &str) -> Option<&'v [Value]>
    ensures { option_map (λ items. items_view items.now) result ≡ spec.items_at name.now (view value.now) }
{
    match value.get(name)?.as_array() {
        Some(items) => Some(items.as_slice()),
        None => None,
    }
}
