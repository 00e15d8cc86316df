//! The calls of `fx_solutions`.

use fx_algebra::Solution;
use fx_notation::{notation, shown};
use fx_solutions::{
    answer_of_rows, extend, filter, in_order, inline_rows, join, join_with, left_join,
    left_join_with, minus, minus_with, ordered, union,
};
use fx_terms::{Memory, Name};
use std::alloc::Global;

/// What a call gives.
pub fn answer(alloc: Global, call: &str, inputs: &[&str]) -> Option<String> {
    match inputs {
        [block] => of_one(alloc, call, block),
        [left, right] => of_two(alloc, call, left, right),
        [first, second, third] => of_three(alloc, call, first, second, third),
        _ => None,
    }
}

fn of_one(alloc: Global, call: &str, block: &str) -> Option<String> {
    match call {
        "inline_rows" => inline(alloc, block),
        _ => None,
    }
}

fn of_two(alloc: Global, call: &str, left: &str, right: &str) -> Option<String> {
    match call {
        "filter" => filtered(alloc, left, right),
        "ordered" => ordered_text(alloc, left, right),
        "answer_of_rows" => answered(alloc, left, right),
        _ => of_rows(alloc, call, left, right),
    }
}

fn of_three(alloc: Global, call: &str, first: &str, second: &str, third: &str) -> Option<String> {
    match call {
        "extend" => extended(alloc, first, second, third),
        "in_order" => by_keys(alloc, first, second, third),
        _ => of_left_join(alloc, call, first, second, third),
    }
}

fn inline(alloc: Global, block: &str) -> Option<String> {
    let block = notation::inline(alloc, block)?;
    text(alloc, inline_rows(alloc, &block))
}

fn filtered(alloc: Global, rows: &str, conditions: &str) -> Option<String> {
    let rows = notation::solutions(alloc, rows)?;
    let conditions = notation::expressions(alloc, conditions)?;
    text(alloc, filter(alloc, rows, conditions.as_slice()))
}

fn extended(alloc: Global, rows: &str, name: &str, expression: &str) -> Option<String> {
    let rows = notation::solutions(alloc, rows)?;
    let name = Name::read(alloc, name).ok()?;
    let expression = notation::expression(alloc, expression)?;
    text(
        alloc,
        extend(alloc, rows.as_slice(), &name, expression.get()),
    )
}

fn ordered_text(alloc: Global, columns: &str, rows: &str) -> Option<String> {
    let columns = notation::names(alloc, columns)?;
    let rows = notation::solutions(alloc, rows)?;
    text(alloc, ordered(alloc, columns.as_slice(), rows.as_slice()))
}

fn by_keys(alloc: Global, keys: &str, columns: &str, rows: &str) -> Option<String> {
    let query = notation::query_by(alloc, keys)?;
    let columns = notation::names(alloc, columns)?;
    let rows = notation::solutions(alloc, rows)?;
    let keys = query.get().order.as_slice();
    text(
        alloc,
        in_order(alloc, keys, columns.as_slice(), rows.as_slice()),
    )
}

fn answered(alloc: Global, query: &str, rows: &str) -> Option<String> {
    let query = notation::query(alloc, query)?;
    let rows = notation::solutions(alloc, rows)?;
    let answer = answer_of_rows(alloc, query.get(), rows.as_slice()).ok()?;
    shown::answer(alloc, &answer)
}

// What a call of two lists of rows gives.
fn of_rows(alloc: Global, call: &str, left: &str, right: &str) -> Option<String> {
    let left = notation::solutions(alloc, left)?;
    let right = notation::solutions(alloc, right)?;
    match call {
        "minus_with" => text(alloc, minus_with(alloc, left, right)),
        "join_with" => sorted(alloc, join_with(alloc, left.as_slice(), right)),
        _ => of_slices(alloc, call, left.as_slice(), right.as_slice()),
    }
}

fn of_slices(alloc: Global, call: &str, left: &[Solution], right: &[Solution]) -> Option<String> {
    match call {
        "union" => text(alloc, union(alloc, left, right)),
        "minus" => text(alloc, minus(alloc, left, right)),
        "join" => sorted(alloc, join(alloc, left, right)),
        _ => None,
    }
}

fn of_left_join(
    alloc: Global,
    call: &str,
    left: &str,
    right: &str,
    conditions: &str,
) -> Option<String> {
    let left = notation::solutions(alloc, left)?;
    let right = notation::solutions(alloc, right)?;
    let tests = notation::expressions(alloc, conditions)?;
    let tests = tests.as_slice();
    match call {
        "left_join" => {
            let (left, right) = (left.as_slice(), right.as_slice());
            sorted(alloc, left_join(alloc, left, right, tests))
        }
        "left_join_with" => sorted(alloc, left_join_with(alloc, left, right, tests)),
        _ => None,
    }
}

fn text(alloc: Global, rows: Result<Vec<Solution>, Memory>) -> Option<String> {
    shown::rows(alloc, rows.ok()?.as_slice())
}

// The texts of rows in their own order.
fn sorted(alloc: Global, rows: Result<Vec<Solution>, Memory>) -> Option<String> {
    let rows = rows.ok()?;
    let mut texts = texts_of(alloc, rows.as_slice())?;
    texts.sort().ok()?;
    joined(alloc, texts.as_slice())
}

fn texts_of(alloc: Global, rows: &[Solution]) -> Option<Vec<String>> {
    let mut texts = Vec::new(alloc);
    for row in rows {
        texts.push(shown::solution(alloc, row)?).ok()?;
    }
    Some(texts)
}

// The texts, each with a `;` behind it.
fn joined(alloc: Global, rows: &[String]) -> Option<String> {
    let mut text = String::new(alloc);
    for row in rows {
        text.push_str(row.as_str()).ok()?;
        text.push(';').ok()?;
    }
    Some(text)
}
