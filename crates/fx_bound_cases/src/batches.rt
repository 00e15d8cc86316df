//! The calls of `fx_bound`, and by `values` those of `fx_values`. A run is its triple patterns and filters as they stand in a group; rows, and answers that are tables, stand
//! as behind VALUES. The rows come under the numbers 10, 11 and so on.
ghost use Rattle.std.specs.Prelude.{◌<◌, All, Contains, IfSome};
ghost use Rattle.fx_spelling.specs.Units.{IsFit};
ghost use Rattle.fx_bound.specs.Answers.{numbers};

use crate::runs::unit_of;
use crate::values;
use fx_algebra::{Row, Solution, Unit};
use fx_bound::{Batch, BatchError, Branch, Found, batch_text, read_batch, unite};
use fx_notation::{fields, notation, shown};
use fx_terms::{Boxed, Items};
use std::alloc::Global;
use std::fmt::Write;

/// What a call gives.
pub fn answer(alloc: Global, call: &str, inputs: &[&str]) -> Option<String> {
    match (call, inputs) {
        ("batch_text", [run, rows]) => batch_shown(alloc, run, rows),
        ("batch_text by blocks", [run, rows, block]) => blocks_shown(alloc, run, rows, block),
        ("read_batch", [run, rows, answer]) => read_shown(alloc, run, rows, answer),
        ("values_text", [run, rows]) => values::text_shown(alloc, run, rows),
        ("read_values", [run, rows, answer]) => values::read_shown(alloc, run, rows, answer),
        ("unite", [run, rows, answers @ ..]) => united_shown(alloc, run, rows, answers),
        _ => None,
    }
}

// ---- texts

fn batch_shown(alloc: Global, run: &str, rows: &str) -> Option<String> {
    let batch = batch_of(alloc, run, rows)?;
    batch_as_text(alloc, batch.get())
}

// The batches of rows of which each takes so many at most, with ` ;; ` between.
fn blocks_shown(alloc: Global, run: &str, rows: &str, block: &str) -> Option<String> {
    let unit = unit_of(alloc, run)?;
    let rows = rows_of(alloc, rows)?;
    let block = block.parse::<usize>().ok()?;
    if block == 0 {
        return None;
    }
    blocks_of(alloc, unit.get(), rows.as_slice(), block)
}

fn blocks_of(alloc: Global, unit: &Unit, rows: &[Row], block: usize) -> Option<String>
    requires fit { IsFit unit.now }
    requires some { 0 < block }
{
    let mut text = String::new(alloc);
    for rows in rows.chunks(block) {
        let block = block_text(alloc, unit, rows)?;
        fields::add_behind(&mut text, " ;; ", block.as_str())?;
    }
    Some(text)
}

fn block_text(alloc: Global, unit: &Unit, rows: &[Row]) -> Option<String>
    requires { IsFit unit.now }
{
    let batch = batch_by(alloc, unit, rows)?;
    batch_as_text(alloc, batch.get())
}

// The text, and for each branch its number and the names that it has sent, or the one that it checks.
fn batch_as_text(alloc: Global, batch: &Batch) -> Option<String> {
    let mut text = String::new(alloc);
    text.push_str(batch.text().unwrap_or("nothing")).ok()?;
    for branch in batch.branches() {
        push_branch(&mut text, branch)?;
    }
    Some(text)
}

fn push_branch(text: &mut String, branch: &Branch) -> Option<()> {
    let number = branch.number;
    write!(text, " | {number}").ok()?;
    if let Some(name) = &branch.checked {
        let name = name.text();
        write!(text, " {name}").ok()?;
    }
    for (other, own) in branch.sent.as_slice() {
        let (other, own) = (other.text(), own.text());
        write!(text, " {other}={own}").ok()?;
    }
    Some(())
}

// ---- answers

fn read_shown(alloc: Global, run: &str, rows: &str, answer: &str) -> Option<String> {
    let batch = batch_of(alloc, run, rows)?;
    let answer = notation::answer(alloc, answer)?;
    match read_batch(alloc, batch.get(), &answer) {
        Ok(founds) => founds_text(alloc, founds.as_slice()),
        Err(error) => error_text(alloc, error),
    }
}

/// What was found, each as its branch and its solution with `;` behind.
pub fn founds_text(alloc: Global, founds: &[Found]) -> Option<String> {
    let mut text = String::new(alloc);
    for found in founds {
        push_numbered(alloc, &mut text, found.branch as u64, &found.solution)?;
    }
    Some(text)
}

/// Adds a number, the pairs of a solution, and `;`.
pub fn push_numbered(
    alloc: Global,
    text: &mut String,
    number: u64,
    solution: &Solution,
) -> Option<()> {
    let solution = shown::solution(alloc, solution)?;
    write!(text, "{number} {solution};").ok()
}

/// The name of a fault, with its row where it has one. Gives nothing for want of memory.
pub fn error_text(alloc: Global, error: BatchError) -> Option<String> {
    match error {
        BatchError::NotTable => shown::word(alloc, "NotTable"),
        BatchError::Foreign { row } => format!(in alloc; "Foreign at {row}").ok(),
        BatchError::Mixed { row } => format!(in alloc; "Mixed at {row}").ok(),
        BatchError::Partial { row } => format!(in alloc; "Partial at {row}").ok(),
        BatchError::Memory => None,
    }
}

// ---- answers united

fn united_shown(alloc: Global, run: &str, rows: &str, answers: &[&str]) -> Option<String> {
    let batch = batch_of(alloc, run, rows)?;
    united_text(alloc, batch.get(), answers)
}

fn united_text(alloc: Global, batch: &Batch, answers: &[&str]) -> Option<String> {
    let lists = lists_of(alloc, batch, answers)?;
    let rows = unite(alloc, batch, lists.as_slice()).ok()?;
    let mut text = String::new(alloc);
    for row in &rows {
        push_numbered(alloc, &mut text, row.origin, &row.solution)?;
    }
    Some(text)
}

// What is read of each answer.
fn lists_of(alloc: Global, batch: &Batch, answers: &[&str]) -> Option<Vec<Items<Found>>>
    ensures { IfSome result (λ lists. All (λ list. All (λ f. Contains (numbers batch.now) f.branch) list) lists.items) }
{
    let mut lists = Vec::new(alloc);
    for answer in answers {
        lists.push(list_of(alloc, batch, answer)?).ok()?;
    }
    Some(lists)
}

fn list_of(alloc: Global, batch: &Batch, answer: &str) -> Option<Items<Found>>
    ensures { IfSome result (λ list. All (λ f. Contains (numbers batch.now) f.branch) list) }
{
    let answer = notation::answer(alloc, answer)?;
    match read_batch(alloc, batch, &answer) {
        Ok(list) => Some(list),
        Err(_) => None,
    }
}

// ---- batches

/// The batch of the one unit of a run, for rows under the numbers 10, 11 and so on.
pub fn batch_of(alloc: Global, run: &str, rows: &str) -> Option<Boxed<Batch>> {
    let unit = unit_of(alloc, run)?;
    let rows = rows_of(alloc, rows)?;
    batch_by(alloc, unit.get(), rows.as_slice())
}

fn batch_by(alloc: Global, unit: &Unit, rows: &[Row]) -> Option<Boxed<Batch>>
    requires { IsFit unit.now }
{
    if rows.len() > 64 {
        return None;
    }
    Boxed::new(alloc, batch_text(alloc, unit, rows).ok()?).ok()
}

pub(crate) fn rows_of(alloc: Global, field: &str) -> Option<Vec<Row>> {
    let solutions = notation::solutions(alloc, field)?;
    let mut rows = Vec::new(alloc);
    let mut origin = 10u64;
    for solution in solutions {
        rows.push(Row { origin, solution }).ok()?;
        origin = origin.saturating_add(1);
    }
    Some(rows)
}
