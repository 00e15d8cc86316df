//! The calls of `fx_values`. A run, rows and answers stand as for `fx_bound`.
ghost use Rattle.fx_spelling.specs.Units.{IsFit};

use crate::batches::{push_numbered, rows_of};
use crate::runs::unit_of;
use fx_algebra::{Row, Unit};
use fx_notation::{notation, shown};
use fx_terms::{Boxed, Name};
use fx_values::{Located, ValuesBatch, ValuesError, read_values, values_text};
use std::alloc::Global;
use std::fmt::Write;

/// The text of a block, or `nothing`, the unit's variables, and the rows that the block has, each as its number and its solution.
pub(crate) fn text_shown(alloc: Global, run: &str, rows: &str) -> Option<String> {
    let batch = batch_of(alloc, run, rows)?;
    batch_as_text(alloc, batch.get())
}

fn batch_as_text(alloc: Global, batch: &ValuesBatch) -> Option<String> {
    let mut text = String::new(alloc);
    text.push_str(batch.text().unwrap_or("nothing")).ok()?;
    push_names(&mut text, batch.names())?;
    push_rows(alloc, &mut text, batch.rows())?;
    Some(text)
}

fn push_names(text: &mut String, names: &[Name]) -> Option<()> {
    text.push_str(" |").ok()?;
    for name in names {
        let name = name.text();
        write!(text, " {name}").ok()?;
    }
    Some(())
}

fn push_rows(alloc: Global, text: &mut String, rows: &[(u32, Row)]) -> Option<()> {
    for (number, row) in rows {
        text.push_str(" | ").ok()?;
        push_numbered(alloc, text, *number as u64, &row.solution)?;
    }
    Some(())
}

/// What is read of an answer, or its fault.
pub(crate) fn read_shown(alloc: Global, run: &str, rows: &str, answer: &str) -> Option<String> {
    let batch = batch_of(alloc, run, rows)?;
    let answer = notation::answer(alloc, answer)?;
    match read_values(alloc, batch.get(), &answer) {
        Ok(all) => located_text(alloc, all.as_slice()),
        Err(error) => error_text(alloc, error),
    }
}

fn located_text(alloc: Global, all: &[Located]) -> Option<String> {
    let mut text = String::new(alloc);
    for located in all {
        push_numbered(alloc, &mut text, located.row as u64, &located.solution)?;
    }
    Some(text)
}

/// The name of a fault, with its row where it has one. Gives nothing for want of memory.
pub fn error_text(alloc: Global, error: ValuesError) -> Option<String> {
    match error {
        ValuesError::NotTable => shown::word(alloc, "NotTable"),
        ValuesError::Foreign { row } => format!(in alloc; "Foreign at {row}").ok(),
        ValuesError::Partial { row } => format!(in alloc; "Partial at {row}").ok(),
        ValuesError::Mixed { row } => format!(in alloc; "Mixed at {row}").ok(),
        ValuesError::Memory => None,
    }
}

/// The batch of rows of a unit, as one VALUES block.
pub fn batch_of(alloc: Global, run: &str, rows: &str) -> Option<Boxed<ValuesBatch>> {
    let unit = unit_of(alloc, run)?;
    let rows = rows_of(alloc, rows)?;
    batch_by(alloc, unit.get(), rows.as_slice())
}

fn batch_by(alloc: Global, unit: &Unit, rows: &[Row]) -> Option<Boxed<ValuesBatch>>
    requires { IsFit unit.now }
{
    if rows.len() > 64 {
        return None;
    }
    Boxed::new(alloc, values_text(alloc, unit, rows).ok()?).ok()
}
