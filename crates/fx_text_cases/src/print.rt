//! The calls of `fx_print`.

use fx_algebra::{Form, Query};
use fx_notation::notation;
use fx_terms::Items;
use std::alloc::Global;

/// What a call gives.
pub fn answer(alloc: Global, call: &str, inputs: &[&str]) -> Option<String> {
    match inputs {
        [field] => of_one(alloc, call, field),
        _ => None,
    }
}

fn of_one(alloc: Global, call: &str, field: &str) -> Option<String> {
    match call {
        "print" => print(alloc, field),
        "print without columns" => print_without_columns(alloc, field),
        "print_element" => print_element(alloc, field),
        _ => None,
    }
}

fn print(alloc: Global, query: &str) -> Option<String> {
    let query = notation::query(alloc, query)?;
    fx_print::print(alloc, query.get()).ok()
}

fn print_without_columns(alloc: Global, query: &str) -> Option<String> {
    let mut query = notation::query(alloc, query)?.into_inner();
    drop_columns(alloc, &mut query);
    fx_print::print(alloc, &query).ok()
}

// Leaves a query no column, as one that reads all names has where there is none.
fn drop_columns(alloc: Global, query: &mut Query) {
    if let Form::Select { columns, .. } = &mut query.form {
        *columns = Items::new(alloc);
    }
}

fn print_element(alloc: Global, element: &str) -> Option<String> {
    let element = notation::element(alloc, element)?;
    fx_print::print_element(alloc, element.get()).ok()
}
