//! The calls of `fx_expr`.

use crate::algebra::bound;
use fx_algebra::{Expr, Solution};
use fx_expr::{compare_keys, holds, truth, value};
use fx_notation::{escapes, notation, shown};
use fx_terms::{Items, Name, Term};
use std::alloc::Global;
use std::cmp::Ordering;

/// What a call gives.
pub fn answer(alloc: Global, call: &str, inputs: &[&str]) -> Option<String> {
    match inputs {
        [field] => of_one(alloc, call, field),
        [left, right] => of_two(alloc, call, left, right),
        _ => None,
    }
}

fn of_one(alloc: Global, call: &str, field: &str) -> Option<String> {
    match call {
        "value" => value_text(alloc, field),
        "truth" => truth_text(alloc, field),
        "holds" => held(alloc, field),
        "compare_keys of all" => rising(alloc, field),
        _ => None,
    }
}

fn of_two(alloc: Global, call: &str, left: &str, right: &str) -> Option<String> {
    match call {
        "value of each" => value_letters(alloc, left, right),
        "compare_keys" => order_text(alloc, left, right),
        _ => None,
    }
}

// A value, or the error.
fn value_text(alloc: Global, field: &str) -> Option<String> {
    let text = escapes::text(alloc, field)?;
    let expr = notation::expression(alloc, text.as_str())?;
    shown_value(alloc, expr.get())
}

fn shown_value(alloc: Global, expr: &Expr) -> Option<String> {
    match value_of(alloc, expr)? {
        Some(term) => shown::term(alloc, &term),
        None => shown::word(alloc, "error"),
    }
}

// The variable i has a value, and the others have none.
fn value_of(alloc: Global, expr: &Expr) -> Option<Option<Term>> {
    let solution = solution(alloc)?;
    value(alloc, expr, &solution).ok()
}

fn solution(alloc: Global) -> Option<Solution> {
    let name = Name::read(alloc, "i").ok()?;
    let seven = notation::term(alloc, "7")?;
    bound(alloc, &Solution::empty(alloc), &name, &seven)
}

// A letter for the value with each operand in the place of `#`: T for true, F for false, E for the error.
fn value_letters(alloc: Global, expression: &str, operands: &str) -> Option<String> {
    let (before, behind) = expression.split_once('#')?;
    let mut letters = String::new(alloc);
    for operand in operands.split(" ; ") {
        letters
            .push(value_letter(alloc, before, operand, behind)?)
            .ok()?;
    }
    Some(letters)
}

fn value_letter(alloc: Global, before: &str, operand: &str, behind: &str) -> Option<char> {
    let text = format!(in alloc; "{before}{operand}{behind}").ok()?;
    found_letter(alloc, text.as_str())
}

fn found_letter(alloc: Global, field: &str) -> Option<char> {
    let found = value_text(alloc, field)?;
    Some(letter(found.as_str()))
}

fn letter(value: &str) -> char {
    match value {
        "\"true\"^^xsd:boolean" => 'T',
        "\"false\"^^xsd:boolean" => 'F',
        "error" => 'E',
        _ => '?',
    }
}

fn truth_text(alloc: Global, text: &str) -> Option<String> {
    match truth(&notation::term(alloc, text)?) {
        Some(truth) => shown::truth(alloc, truth),
        None => shown::word(alloc, "error"),
    }
}

// Whether all conditions hold on the solution that binds nothing.
fn held(alloc: Global, field: &str) -> Option<String> {
    let conditions = notation::expressions(alloc, field)?;
    let nothing = Solution::empty(alloc);
    let held = holds(alloc, conditions.as_slice(), &nothing).ok()?;
    shown::truth(alloc, held)
}

fn order_text(alloc: Global, left: &str, right: &str) -> Option<String> {
    let left = key(alloc, left)?;
    order_beside(alloc, left.as_ref(), right)
}

fn order_beside(alloc: Global, left: Option<&Term>, right: &str) -> Option<String> {
    let right = key(alloc, right)?;
    shown::word(alloc, order_name(compare_keys(left, right.as_ref())))
}

fn order_name(order: Ordering) -> &'static str {
    match order {
        Ordering::Less => "Less",
        Ordering::Equal => "Equal",
        Ordering::Greater => "Greater",
    }
}

// A term as a key, or the error.
fn key(alloc: Global, text: &str) -> Option<Option<Term>> {
    if text == "error" {
        return Some(None);
    }
    Some(Some(notation::term(alloc, text)?))
}

// Whether each key of a list is less than those behind it, greater than those before it, and equal to itself.
fn rising(alloc: Global, field: &str) -> Option<String> {
    let keys = keys(alloc, field)?;
    rising_text(alloc, keys.as_slice())
}

fn keys(alloc: Global, field: &str) -> Option<Items<Option<Term>>> {
    let mut keys = Items::new(alloc);
    for text in field.split(" ; ") {
        keys.push(key(alloc, text)?).ok()?;
    }
    Some(keys)
}

fn rising_text(alloc: Global, keys: &[Option<Term>]) -> Option<String> {
    for (key, place) in keys.iter().zip(0u64..) {
        if let Some(other) = first_amiss(keys, key.as_ref(), place) {
            return format!(in alloc; "{place} and {other} are out of order").ok();
        }
    }
    shown::word(alloc, "rising")
}

// The place of the first key to which the key of a place doesn't stand as the places stand.
fn first_amiss(keys: &[Option<Term>], key: Option<&Term>, place: u64) -> Option<u64> {
    for (other, at) in keys.iter().zip(0u64..) {
        if compare_keys(key, other.as_ref()) != place.cmp(&at) {
            return Some(at);
        }
    }
    None
}
