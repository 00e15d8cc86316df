//! Queries are printed.
ghost use Rattle.std.specs.Prelude.{◌≡◌, ◌++◌, List, Option, OnOk, string_bytes};
ghost use Rattle.std.specs.List.{flat_map};
ghost use Rattle.fx_algebra.specs.Printed as spec;

use crate::expressions::{is_call, is_variable, push_bracketed, push_expr};
use crate::groups::{push_block, push_group};
use crate::words::{push_fixed, push_number, push_variables};
use fx_algebra::{Form, Inline, Order, Query};
use fx_terms::{Memory, Name};

/// A query.
#[tactic(auto, unfolding(fx_algebra::specs::Printed::query_words))]
pub(crate) fn push_query(text: &mut String, query: &Query) -> Result<(), Memory>
    ensures { OnOk result (string_bytes text.new ≡ string_bytes text.old ++ spec.spaced (spec.query_words query.now)) }
{
    push_form(text, &query.form)?;
    push_group(text, &query.group)?;
    push_order(text, query.order.as_slice())?;
    push_limit(text, query.limit)?;
    push_offset(text, query.offset)?;
    push_trailing(text, &query.inline)
}

#[tactic(auto, unfolding(fx_algebra::specs::Printed::form_words))]
fn push_form(text: &mut String, form: &Form) -> Result<(), Memory>
    ensures { OnOk result (string_bytes text.new ≡ string_bytes text.old ++ spec.spaced (spec.form_words form.now)) }
{
    match form {
        Form::Select { distinct, columns } => {
            push_fixed(text, "SELECT")?;
            push_distinct(text, *distinct)?;
            push_columns(text, columns.as_slice())?;
            push_fixed(text, "WHERE")
        }
        Form::Ask => {
            push_fixed(text, "ASK")?;
            push_fixed(text, "WHERE")
        }
    }
}

fn push_distinct(text: &mut String, distinct: bool) -> Result<(), Memory>
    ensures { OnOk result (string_bytes text.new ≡ string_bytes text.old ++ spec.spaced (spec.distinction distinct)) }
{
    if distinct {
        push_fixed(text, "DISTINCT")?;
    }
    Ok(())
}

// The columns, or a star where there are none.
fn push_columns(text: &mut String, columns: &[Name]) -> Result<(), Memory>
    ensures { OnOk result (string_bytes text.new ≡ string_bytes text.old ++ spec.spaced (spec.column_words columns.now)) }
{
    if columns.is_empty() {
        return push_fixed(text, "*");
    }
    push_variables(text, columns)
}

#[tactic(auto, unfolding(fx_algebra::specs::Printed::order_words))]
fn push_order(text: &mut String, keys: &[Order]) -> Result<(), Memory>
    ensures { OnOk result (string_bytes text.new ≡ string_bytes text.old ++ spec.spaced (spec.order_words keys.now)) }
{
    if keys.is_empty() {
        return Ok(());
    }
    push_fixed(text, "ORDER")?;
    push_fixed(text, "BY")?;
    push_keys(text, keys)
}

fn push_keys(text: &mut String, keys: &[Order]) -> Result<(), Memory>
    ensures { OnOk result (string_bytes text.new ≡ string_bytes text.old ++ spec.spaced (flat_map spec.key_words keys.now)) }
{
    for key in keys {
        push_key(text, key)?;
    }
    Ok(())
}

#[tactic(auto, unfolding(fx_algebra::specs::Printed::key_words))]
fn push_key(text: &mut String, key: &Order) -> Result<(), Memory>
    ensures { OnOk result (string_bytes text.new ≡ string_bytes text.old ++ spec.spaced (spec.key_words key.now)) }
{
    if key.descending {
        push_fixed(text, "DESC")?;
        return push_bracketed(text, &key.expr);
    }
    if is_call(&key.expr) || is_variable(&key.expr) {
        return push_expr(text, &key.expr);
    }
    push_fixed(text, "ASC")?;
    push_bracketed(text, &key.expr)
}

fn push_limit(text: &mut String, limit: Option<u64>) -> Result<(), Memory>
    ensures { OnOk result (string_bytes text.new ≡ string_bytes text.old ++ spec.spaced (spec.limit_words limit)) }
{
    match limit {
        Some(rows) => {
            push_fixed(text, "LIMIT")?;
            push_number(text, rows)
        }
        None => Ok(()),
    }
}

fn push_offset(text: &mut String, offset: u64) -> Result<(), Memory>
    ensures { OnOk result (string_bytes text.new ≡ string_bytes text.old ++ spec.spaced (spec.offset_words offset)) }
{
    if offset == 0 {
        return Ok(());
    }
    push_fixed(text, "OFFSET")?;
    push_number(text, offset)
}

fn push_trailing(text: &mut String, inline: &Option<Inline>) -> Result<(), Memory>
    ensures { OnOk result (string_bytes text.new ≡ string_bytes text.old ++ spec.spaced (spec.trailing_words inline.now)) }
{
    match inline {
        Some(block) => {
            push_fixed(text, "VALUES")?;
            push_block(text, block)
        }
        None => Ok(()),
    }
}
