//! The calls of `fx_store`.
ghost use Rattle.std.specs.Prelude.{◌≡◌};

use fx_algebra::Solution;
use fx_notation::{notation, shown};
use fx_store::{Steps, Store};
use fx_terms::{Pattern, Triple};
use std::alloc::Global;
use std::marker::Brand;
use std::sync::ledger::{Blank, Ledger};

/// What a call gives.
pub fn answer(alloc: Global, call: &str, inputs: &[&str]) -> Option<String> {
    match inputs {
        [first, second] => of_two(alloc, call, first, second),
        [graph, pattern, solution] => of_three(alloc, call, graph, pattern, solution),
        [graph, pattern, row, count] => of_four(alloc, call, graph, pattern, row, count),
        _ => None,
    }
}

fn of_two(alloc: Global, call: &str, first: &str, second: &str) -> Option<String> {
    match call {
        "Store::matches_counted of many" => counted(alloc, first, second),
        "Store::has" => has(alloc, first, second),
        _ => None,
    }
}

fn of_three(
    alloc: Global,
    call: &str,
    graph: &str,
    pattern: &str,
    solution: &str,
) -> Option<String> {
    match call {
        "Store::matches" => matches(alloc, graph, pattern, solution),
        "Store::some_fits" => some_fits(alloc, graph, pattern, solution),
        "Store::count" => count(alloc, graph, pattern, solution),
        _ => None,
    }
}

fn of_four(
    alloc: Global,
    call: &str,
    graph: &str,
    pattern: &str,
    row: &str,
    count: &str,
) -> Option<String> {
    match call {
        "Store::extend of one row" => extend(alloc, graph, pattern, row, count),
        _ => None,
    }
}

/// The store of a graph.
pub fn store(alloc: Global, graph: &str) -> Option<Store> {
    Store::load(alloc, notation::graph(alloc, graph)?).ok()
}

fn matches(alloc: Global, graph: &str, pattern: &str, solution: &str) -> Option<String> {
    let store = store(alloc, graph)?;
    matches_in(alloc, &store, pattern, solution)
}

fn matches_in(alloc: Global, store: &Store, pattern: &str, solution: &str) -> Option<String> {
    let pattern = notation::pattern(alloc, pattern)?;
    matches_of(alloc, store, pattern.get(), solution)
}

fn matches_of(alloc: Global, store: &Store, pattern: &Pattern, solution: &str) -> Option<String> {
    let solution = notation::solution(alloc, solution)?;
    matches_text(alloc, store, pattern, &solution)
}

fn matches_text(
    alloc: Global,
    store: &Store,
    pattern: &Pattern,
    solution: &Solution,
) -> Option<String> {
    let rows = store.matches(alloc, pattern, solution).ok()?;
    shown::rows(alloc, rows.as_slice())
}

// The solutions of a pattern over as many triples, of one subject and one predicate, with the numbers from 0 on as objects.
fn counted(alloc: Global, count: &str, pattern: &str) -> Option<String> {
    let store = many(alloc, count)?;
    let pattern = notation::pattern(alloc, pattern)?;
    counted_from::<Brand>(alloc, &store, pattern.get(), Blank::new(1))
}

fn many(alloc: Global, count: &str) -> Option<Store> {
    let count = count.parse::<usize>().ok()?;
    let mut text = String::new(alloc);
    for number in 0..count {
        push_numbered(alloc, &mut text, number)?;
    }
    store(alloc, text.as_str())
}

fn push_numbered(alloc: Global, text: &mut String, number: usize) -> Option<()> {
    let triple = format!(in alloc; "<http://e/s> <http://e/p> \"{number}\" . ").ok()?;
    text.push_str(triple.as_str()).ok()
}

fn counted_from<L: Ledger>(
    alloc: Global,
    store: &Store,
    pattern: &Pattern,
    blank: Blank,
) -> Option<String>
    requires name { blank.name ≡ L.name }
    requires parts { blank.parts ≡ L.parts }
    requires one { blank.parts ≡ 1 }
{
    let (book, share) = blank.open::<L>();
    let mut steps = Steps::of(book, share);
    let solution = Solution::empty(alloc);
    let rows = store
        .matches_counted(alloc, pattern, &solution, &mut steps)
        .ok()?;
    shown::rows(alloc, rows.as_slice())
}

// What a row that stands so often is extended to by one call, where that is as often what it is extended to alone.
fn extend(alloc: Global, graph: &str, pattern: &str, row: &str, count: &str) -> Option<String> {
    let count = count.parse::<usize>().ok()?;
    let store = store(alloc, graph)?;
    extend_in(alloc, &store, pattern, row, count)
}

fn extend_in(
    alloc: Global,
    store: &Store,
    pattern: &str,
    row: &str,
    count: usize,
) -> Option<String> {
    let pattern = notation::pattern(alloc, pattern)?;
    extend_of(alloc, store, pattern.get(), row, count)
}

fn extend_of(
    alloc: Global,
    store: &Store,
    pattern: &Pattern,
    row: &str,
    count: usize,
) -> Option<String> {
    let row = notation::solution(alloc, row)?;
    both_ways(alloc, store, pattern, &row, count)
}

fn both_ways(
    alloc: Global,
    store: &Store,
    pattern: &Pattern,
    row: &Solution,
    count: usize,
) -> Option<String> {
    let alone = matches_text(alloc, store, pattern, row)?;
    let together = extended_text(alloc, store, pattern, row, count)?;
    if together == alone.as_str().repeat(alloc, count).ok()? {
        shown::word(alloc, "as each of them")
    } else {
        Some(together)
    }
}

fn extended_text(
    alloc: Global,
    store: &Store,
    pattern: &Pattern,
    row: &Solution,
    count: usize,
) -> Option<String> {
    let mut rows = Vec::new(alloc);
    for _ in 0..count {
        rows.push(row.copy(alloc).ok()?).ok()?;
    }
    let rows = store.extend(alloc, pattern, rows.as_slice()).ok()?;
    shown::rows(alloc, rows.as_slice())
}

fn some_fits(alloc: Global, graph: &str, pattern: &str, solution: &str) -> Option<String> {
    let store = store(alloc, graph)?;
    some_fits_in(alloc, &store, pattern, solution)
}

fn some_fits_in(alloc: Global, store: &Store, pattern: &str, solution: &str) -> Option<String> {
    let pattern = notation::pattern(alloc, pattern)?;
    some_fits_of(alloc, store, pattern.get(), solution)
}

fn some_fits_of(alloc: Global, store: &Store, pattern: &Pattern, solution: &str) -> Option<String> {
    let solution = notation::solution(alloc, solution)?;
    shown::truth(alloc, store.some_fits(pattern, &solution))
}

fn count(alloc: Global, graph: &str, pattern: &str, solution: &str) -> Option<String> {
    let store = store(alloc, graph)?;
    count_in(alloc, &store, pattern, solution)
}

fn count_in(alloc: Global, store: &Store, pattern: &str, solution: &str) -> Option<String> {
    let pattern = notation::pattern(alloc, pattern)?;
    count_of(alloc, store, pattern.get(), solution)
}

fn count_of(alloc: Global, store: &Store, pattern: &Pattern, solution: &str) -> Option<String> {
    let solution = notation::solution(alloc, solution)?;
    let count = store.count(pattern, &solution);
    format!(in alloc; "{count}").ok()
}

fn has(alloc: Global, graph: &str, triple: &str) -> Option<String> {
    let store = store(alloc, graph)?;
    has_in(alloc, &store, triple)
}

fn has_in(alloc: Global, store: &Store, triple: &str) -> Option<String> {
    let triple = triple_of(alloc, triple)?;
    shown::truth(alloc, store.has(&triple))
}

fn triple_of(alloc: Global, text: &str) -> Option<Triple> {
    notation::triple(notation::pattern(alloc, text)?.get())
}
