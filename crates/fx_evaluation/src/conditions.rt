//! Filters that are applied before the end of their group, to rows that bind all their variables.
ghost use Rattle.std.specs.Prelude.{◌≡◌, ◌<◌, [], ◌∷◌, ◌++◌, IfOk, OnOk, filter, length};
ghost use Rattle.fx_algebra.specs.Conditions.{is_so as is_so_on};
ghost use Rattle.fx_evaluation.specs.Conditions as spec;
ghost use Rattle.fx_steps.specs.Fewer.{AreFewer};

use fx_algebra::{Expr, Sign, Solution};
use fx_expr::{truth, value};
use fx_terms::Memory;
use std::alloc::Global;

/// Conditions that hold together where the filters do: of a conjunction its parts, and any other as it is.
pub(crate) fn conjuncts(alloc: Global, filters: &[Expr]) -> Result<Vec<Expr>, Memory>
    ensures { IfOk result (λ parts. spec.AreAsStrict parts.items filters.now) }
{
    let mut parts = Vec::new(alloc);
    for filter in filters {
        add_conjuncts(alloc, &mut parts, filter)?;
    }
    Ok(parts)
}

fn add_conjuncts(alloc: Global, parts: &mut Vec<Expr>, filter: &Expr) -> Result<(), Memory>
    ensures { OnOk result (spec.AreStricter parts.new.items parts.old.items (filter.now ∷ [])) }
{
    match filter {
        Expr::And(conjuncts) => {
            add_all(alloc, parts, conjuncts.as_slice())?;
            Ok(())
        }
        _ => {
            parts.push(filter.copy(alloc)?)?;
            Ok(())
        }
    }
}

fn add_all(alloc: Global, parts: &mut Vec<Expr>, more: &[Expr]) -> Result<(), Memory>
    ensures { OnOk result (parts.new.items ≡ parts.old.items ++ more.now) }
{
    for part in more {
        parts.push(part.copy(alloc)?)?;
    }
    Ok(())
}

/// Conditions, and others behind them.
pub(crate) fn both(alloc: Global, own: &[Expr], outside: &[Expr]) -> Result<Vec<Expr>, Memory>
    ensures { IfOk result (λ conditions. conditions.items ≡ own.now ++ outside.now) }
{
    let mut conditions = Vec::new(alloc);
    add_all(alloc, &mut conditions, own)?;
    add_all(alloc, &mut conditions, outside)?;
    Ok(conditions)
}

/// Rows without those that bind all variables of a condition that doesn't hold on them, for each condition of which the first row
/// binds all variables, and a row before it didn't.
pub(crate) fn early(
    alloc: Global,
    rows: Vec<Solution>,
    conditions: &[Expr],
    before: &Solution,
) -> Result<Vec<Solution>, Memory>
    ensures { IfOk result (λ kept. AreFewer conditions.now kept.items rows.items) }
{
    let mut kept = rows;
    for place in 0..conditions.len() {
        if is_new(&conditions[place], kept.as_slice(), before) {
            kept = without_refused(alloc, kept, conditions, place)?;
        }
    }
    Ok(kept)
}

// Whether the first row binds all variables of an expression, and a row before it didn't.
fn is_new(expr: &Expr, rows: &[Solution], before: &Solution) -> bool {
    match rows.first() {
        Some(row) => binds(row, expr) && !binds(before, expr),
        None => false,
    }
}

// Rows without those that the condition at a place refuses.
fn without_refused(
    alloc: Global,
    rows: Vec<Solution>,
    conditions: &[Expr],
    place: usize,
) -> Result<Vec<Solution>, Memory>
    requires { place < length conditions.now }
    ensures { IfOk result (λ kept. AreFewer conditions.now kept.items rows.items) }
{
    let kept = staying(alloc, rows, &conditions[place])?;
    Ok(kept)
}

fn staying(alloc: Global, rows: Vec<Solution>, condition: &Expr) -> Result<Vec<Solution>, Memory>
    ensures { IfOk result (λ kept. kept.items ≡ filter (spec.stays condition.now) rows.items) }
{
    let mut kept = Vec::new(alloc);
    for row in rows {
        if stays(alloc, condition, &row)? {
            kept.push(row)?;
        }
    }
    Ok(kept)
}

// Whether a row lacks a variable of a condition, or it holds.
fn stays(alloc: Global, condition: &Expr, row: &Solution) -> Result<bool, Memory>
    ensures { IfOk result (λ kept. kept ≡ spec.stays condition.now row.now) }
{
    if binds(row, condition) {
        is_so(alloc, condition, row)
    } else {
        Ok(true)
    }
}

fn is_so(alloc: Global, condition: &Expr, row: &Solution) -> Result<bool, Memory>
    ensures { IfOk result (λ held. held ≡ is_so_on row.now condition.now) }
{
    let found = value(alloc, condition, row)?;
    match found {
        None => Ok(false),
        Some(term) => Ok(truth(&term) == Some(true)),
    }
}

/// Whether a row binds each variable of an expression.
#[cycle(names)]
pub(crate) fn binds(row: &Solution, expr: &Expr) -> bool
    ensures { result ≡ spec.binds row.now expr.now }
{
    match expr {
        Expr::Variable(name) => row.get(name).is_some(),
        Expr::Constant(_) => true,
        Expr::Or(parts) => binds_all(row, parts.as_slice()),
        Expr::And(parts) => binds_all(row, parts.as_slice()),
        Expr::Not(part) => binds(row, part.get()),
        Expr::Positive(part) => binds(row, part.get()),
        Expr::Negative(part) => binds(row, part.get()),
        Expr::Compare { op: _, left, right } => binds(row, left.get()) && binds(row, right.get()),
        Expr::Among {
            negated: _,
            item,
            list,
        } => binds(row, item.get()) && binds_all(row, list.as_slice()),
        Expr::Sum { first, rest } => binds(row, first.get()) && binds_signed(row, rest.as_slice()),
        Expr::Product(parts) => binds_all(row, parts.as_slice()),
        Expr::Call { function: _, args } => binds_all(row, args.as_slice()),
    }
}

#[cycle(names)]
fn binds_all(row: &Solution, parts: &[Expr]) -> bool
    ensures { result ≡ spec.binds_all row.now parts.now }
{
    for part in parts {
        if !binds(row, part) {
            return false;
        }
    }
    true
}

#[cycle(names)]
fn binds_signed(row: &Solution, parts: &[(Sign, Expr)]) -> bool
    ensures { result ≡ spec.binds_signed row.now parts.now }
{
    for (_, part) in parts {
        if !binds(row, part) {
            return false;
        }
    }
    true
}
