//! The calls of `fx_algebra`.

use fx_algebra::queries::copy_names;
use fx_algebra::{
    Answer, Element, Expr, Group, Inline, Query, Row, Solution, Unit, is_plain, patterns_of, scope,
    scopes, services,
};
use fx_notation::{fields, notation, shown};
use fx_print::print;
use fx_terms::{Iri, Items, Memory, Name, Pattern, Term};
use std::alloc::Global;

/// What a call gives.
pub fn answer(alloc: Global, call: &str, inputs: &[&str]) -> Option<String> {
    match inputs {
        [text] => of_one(alloc, call, text),
        [left, right] => of_two(alloc, call, left, right),
        [group, members, kind] => of_three(alloc, call, group, members, kind),
        _ => None,
    }
}

// The calls on rows and names, and after them those on queries and their groups.
fn of_one(alloc: Global, call: &str, text: &str) -> Option<String> {
    match call {
        "Solution::with" => with(alloc, text),
        "Solution::copy" => copy_solution(alloc, text),
        "Answer::copy" => copy_answer(alloc, text),
        "scopes::once" => once(alloc, text),
        "copy_names" => copied_names(alloc, text),
        _ => of_query(alloc, call, text),
    }
}

fn of_query(alloc: Global, call: &str, text: &str) -> Option<String> {
    match call {
        "scope" => scope_of(alloc, text),
        "services" => services_of(alloc, text),
        "patterns_of" => patterns(alloc, text),
        "is_plain" => plain(alloc, text),
        "Query::copy" => copy_query(alloc, text),
        _ => None,
    }
}

fn of_two(alloc: Global, call: &str, left: &str, right: &str) -> Option<String> {
    match call {
        "Solution::get" => get(alloc, left, right),
        "Solution::merge" => merge(alloc, left, right),
        "Solution::project" => project(alloc, left, right),
        "scopes::is_among" => is_among(alloc, left, right),
        "Row::copy" => copy_row(alloc, left, right),
        _ => None,
    }
}

fn of_three(alloc: Global, call: &str, group: &str, members: &str, kind: &str) -> Option<String> {
    match call {
        "Unit::copy" => copy_unit(alloc, group, members, kind),
        _ => None,
    }
}

// The solution of one row that is written out, bound name by name, in the order of the columns.
fn solution(alloc: Global, text: &str) -> Option<Solution> {
    let inline = notation::inline(alloc, text)?;
    match inline.rows.as_slice() {
        [row] => bindings(alloc, inline.columns.as_slice(), row.as_slice()),
        _ => None,
    }
}

fn bindings(alloc: Global, columns: &[Name], row: &[Option<Term>]) -> Option<Solution> {
    let mut solution = Solution::empty(alloc);
    for (name, value) in columns.iter().zip(row) {
        if let Some(term) = value {
            solution = bound(alloc, &solution, name, term)?;
        }
    }
    Some(solution)
}

/// The solution with one more pair, where its name is unbound.
pub(crate) fn bound(
    alloc: Global,
    solution: &Solution,
    name: &Name,
    term: &Term,
) -> Option<Solution> {
    match solution.get(name) {
        Some(_) => None,
        None => solution.with(alloc, name, term).ok(),
    }
}

fn with(alloc: Global, row: &str) -> Option<String> {
    shown::solution(alloc, &solution(alloc, row)?)
}

fn copy_solution(alloc: Global, row: &str) -> Option<String> {
    let solution = solution(alloc, row)?;
    shown::solution(alloc, &solution.copy(alloc).ok()?)
}

fn get(alloc: Global, row: &str, name: &str) -> Option<String> {
    let solution = solution(alloc, row)?;
    let name = Name::read(alloc, name).ok()?;
    match solution.get(&name) {
        Some(term) => shown::term(alloc, term),
        None => shown::word(alloc, "unbound"),
    }
}

fn merge(alloc: Global, left: &str, right: &str) -> Option<String> {
    let left = solution(alloc, left)?;
    let right = solution(alloc, right)?;
    if left.agrees(&right) {
        shown::solution(alloc, &left.merge(alloc, &right).ok()?)
    } else {
        shown::word(alloc, "no agreement")
    }
}

fn project(alloc: Global, row: &str, columns: &str) -> Option<String> {
    let solution = solution(alloc, row)?;
    let columns = notation::names(alloc, columns)?;
    shown::solution(alloc, &solution.project(alloc, columns.as_slice()).ok()?)
}

fn once(alloc: Global, names: &str) -> Option<String> {
    let names = notation::names(alloc, names)?;
    let once = scopes::once(alloc, names.as_slice()).ok()?;
    shown::names(alloc, once.as_slice())
}

fn is_among(alloc: Global, names: &str, name: &str) -> Option<String> {
    let names = notation::names(alloc, names)?;
    let name = Name::read(alloc, name).ok()?;
    shown::truth(alloc, scopes::is_among(names.as_slice(), &name))
}

fn copied_names(alloc: Global, names: &str) -> Option<String> {
    let names = notation::names(alloc, names)?;
    shown::names(alloc, copy_names(alloc, names.as_slice()).ok()?.as_slice())
}

fn scope_of(alloc: Global, text: &str) -> Option<String> {
    let group = notation::group(alloc, text)?;
    shown_scope(alloc, &group)
}

fn shown_scope(alloc: Global, group: &Group) -> Option<String> {
    shown::names(alloc, scope(alloc, group).ok()?.as_slice())
}

fn services_of(alloc: Global, text: &str) -> Option<String> {
    let query = notation::query(alloc, text)?;
    shown_services(alloc, query.get())
}

// The services of a query, one after another.
fn shown_services(alloc: Global, query: &Query) -> Option<String> {
    let services = services(alloc, query).ok()?;
    services_text(alloc, services.as_slice())
}

fn services_text(alloc: Global, services: &[(Iri, bool)]) -> Option<String> {
    let mut text = String::new(alloc);
    for (iri, silent) in services {
        fields::add(&mut text, if *silent { "SILENT " } else { "" })?;
        text.push_str(iri.text()).ok()?;
    }
    Some(text)
}

fn patterns(alloc: Global, text: &str) -> Option<String> {
    let group = notation::group(alloc, text)?;
    shown_patterns(alloc, &group)
}

fn shown_patterns(alloc: Global, group: &Group) -> Option<String> {
    let patterns = patterns_of(alloc, group).ok()?;
    patterns_text(alloc, patterns.as_slice())
}

fn patterns_text(alloc: Global, patterns: &[Pattern]) -> Option<String> {
    let mut text = String::new(alloc);
    for pattern in patterns {
        fields::add(&mut text, shown::pattern(alloc, pattern)?.as_str())?;
    }
    Some(text)
}

fn plain(alloc: Global, text: &str) -> Option<String> {
    shown::truth(alloc, is_plain(notation::query(alloc, text)?.get()))
}

fn copy_query(alloc: Global, text: &str) -> Option<String> {
    let query = notation::query(alloc, text)?;
    copied_query(alloc, query.get())
}

// The scope, the services and the last columns of the copy of a query, which is printed as the query is.
fn copied_query(alloc: Global, query: &Query) -> Option<String> {
    match query.copy(alloc) {
        Ok(copy) => copy_text(alloc, query, &copy),
        Err(Memory) => None,
    }
}

fn copy_text(alloc: Global, query: &Query, copy: &Query) -> Option<String> {
    if has_text_of(alloc, query, copy)? {
        query_text(alloc, copy)
    } else {
        shown::word(alloc, "another")
    }
}

// Whether a query is printed as another is.
fn has_text_of(alloc: Global, query: &Query, other: &Query) -> Option<bool> {
    let text = print(alloc, query).ok()?;
    let other = print(alloc, other).ok()?;
    Some(text.as_str() == other.as_str())
}

fn query_text(alloc: Global, query: &Query) -> Option<String> {
    let names = shown_scope(alloc, &query.group)?;
    let services = shown_services(alloc, query)?;
    let columns = match &query.inline {
        Some(inline) => shown::names(alloc, inline.columns.as_slice())?,
        None => String::new(alloc),
    };
    format!(in alloc; "scope {names} ; services {services} ; columns {columns}").ok()
}

// The copy of the table that rows make which are written out.
fn copy_answer(alloc: Global, text: &str) -> Option<String> {
    let Inline { columns, rows: _ } = notation::inline(alloc, text)?;
    let rows = Items::from_vec(notation::solutions(alloc, text)?);
    copied_answer(alloc, &Answer::Table { columns, rows })
}

fn copied_answer(alloc: Global, answer: &Answer) -> Option<String> {
    match answer.copy(alloc).ok()? {
        Answer::Table { columns, rows } => {
            let columns = shown::names(alloc, columns.as_slice())?;
            let rows = shown::solutions(alloc, rows.as_slice())?;
            format!(in alloc; "columns {columns} ; rows {rows}").ok()
        }
        Answer::Truth(truth) => shown::truth(alloc, truth),
    }
}

// The copy of the unit that has the patterns and the filters of a group.
fn copy_unit(alloc: Global, text: &str, members: &str, kind: &str) -> Option<String> {
    let group = notation::group(alloc, text)?;
    let unit = unit(alloc, &group, members, kind == "group")?;
    unit_text(alloc, &unit.copy(alloc).ok()?)
}

fn unit(alloc: Global, parts: &Group, members: &str, group: bool) -> Option<Unit> {
    let members = numbers(alloc, members)?;
    let filters = filters(alloc, parts)?;
    Some(Unit {
        patterns: Items::from_vec(patterns_of(alloc, parts).ok()?),
        filters,
        members,
        group,
    })
}

fn numbers(alloc: Global, field: &str) -> Option<Items<u32>> {
    let mut numbers = Items::new(alloc);
    for word in field.split_whitespace() {
        push_number(&mut numbers, word)?;
    }
    Some(numbers)
}

fn push_number(numbers: &mut Items<u32>, word: &str) -> Option<()> {
    match word.parse::<u32>() {
        Ok(number) => numbers.push(number).ok(),
        Err(_) => None,
    }
}

fn filters(alloc: Global, parts: &Group) -> Option<Items<Expr>> {
    let mut filters = Items::new(alloc);
    for element in parts.elements.as_slice() {
        if let Element::Filter(expr) = element {
            push_copy(alloc, &mut filters, expr)?;
        }
    }
    Some(filters)
}

fn push_copy(alloc: Global, filters: &mut Items<Expr>, expr: &Expr) -> Option<()> {
    match expr.copy(alloc) {
        Ok(copy) => filters.push(copy).ok(),
        Err(_) => None,
    }
}

// The patterns, the filters, which are variables, and the members.
fn unit_text(alloc: Global, unit: &Unit) -> Option<String> {
    let mut text = patterns_text(alloc, unit.patterns.as_slice())?;
    for filter in unit.filters.as_slice() {
        add_filter(&mut text, filter)?;
    }
    for member in unit.members.as_slice() {
        add_number(alloc, &mut text, *member)?;
    }
    fields::add(&mut text, if unit.group { "group" } else { "no group" })?;
    Some(text)
}

fn add_filter(text: &mut String, filter: &Expr) -> Option<()> {
    match filter {
        Expr::Variable(name) => fields::add(text, name.text()),
        _ => None,
    }
}

fn add_number(alloc: Global, text: &mut String, number: u32) -> Option<()> {
    let number = format!(in alloc; "{number}").ok()?;
    fields::add(text, number.as_str())
}

fn copy_row(alloc: Global, origin: &str, text: &str) -> Option<String> {
    let row = Row {
        origin: origin.parse::<u64>().ok()?,
        solution: solution(alloc, text)?,
    };
    copied_row(alloc, &row)
}

fn copied_row(alloc: Global, row: &Row) -> Option<String> {
    let copy = row.copy(alloc).ok()?;
    let origin = copy.origin;
    let pairs = shown::solution(alloc, &copy.solution)?;
    format!(in alloc; "{origin}: {pairs}").ok()
}
