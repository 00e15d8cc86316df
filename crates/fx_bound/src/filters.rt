//! Filters with a row's terms in them.
ghost use Rattle.std.specs.Prelude.{◌≡◌, IfOk, map};
ghost use Rattle.fx_algebra.specs.declared.expressions.Expr.TheVariants as expr;
ghost use Rattle.fx_renaming.specs.Branches.{bound_expr};
ghost use Rattle.fx_bound.specs.Reading.{named};

use crate::names::{Names, sent_name};
use fx_algebra::{Expr, Sign, Solution};
use fx_terms::{Boxed, Items, Memory, Name, Term};
use std::alloc::Global;

/// A filter with a row's terms in the places of the variables that the row binds, and the other name of each other variable.
pub(crate) fn bound_filter(
    alloc: Global,
    names: &Names,
    number: u32,
    row: &Solution,
    filter: &Expr,
) -> Result<Boxed<Expr>, Memory>
    ensures { IfOk result (λ e. e ≡ bound_expr (named names.now number) row.now filter.now) }
{
    Ok(Boxed::new(alloc, bound(alloc, names, number, row, filter)?)?)
}

#[cycle(bound)]
fn bound(
    alloc: Global,
    names: &Names,
    number: u32,
    row: &Solution,
    expr: &Expr,
) -> Result<Expr, Memory>
    ensures { IfOk result (λ e. e ≡ bound_expr (named names.now number) row.now expr.now) }
{
    match expr {
        Expr::Variable(name) => bound_variable(alloc, names, number, row, name),
        Expr::Constant(term) => constant(term),
        Expr::Or(parts) => Ok(Expr::Or(bound_all(alloc, names, number, row, parts.as_slice())?)),
        Expr::And(parts) => Ok(Expr::And(bound_all(alloc, names, number, row, parts.as_slice())?)),
        Expr::Not(part) => Ok(Expr::Not(bound_boxed(alloc, names, number, row, part)?)),
        Expr::Positive(part) => Ok(Expr::Positive(bound_boxed(alloc, names, number, row, part)?)),
        Expr::Negative(part) => Ok(Expr::Negative(bound_boxed(alloc, names, number, row, part)?)),
        Expr::Compare { op, left, right } => Ok(Expr::Compare {
            op: *op,
            left: bound_boxed(alloc, names, number, row, left)?,
            right: bound_boxed(alloc, names, number, row, right)?,
        }),
        Expr::Among {
            negated,
            item,
            list,
        } => Ok(Expr::Among {
            negated: *negated,
            item: bound_boxed(alloc, names, number, row, item)?,
            list: bound_all(alloc, names, number, row, list.as_slice())?,
        }),
        Expr::Sum { first, rest } => Ok(Expr::Sum {
            first: bound_boxed(alloc, names, number, row, first)?,
            rest: bound_signed(alloc, names, number, row, rest.as_slice())?,
        }),
        Expr::Product(parts) => Ok(Expr::Product(bound_all(
            alloc,
            names,
            number,
            row,
            parts.as_slice(),
        )?)),
        Expr::Call { function, args } => Ok(Expr::Call {
            function: *function,
            args: bound_all(alloc, names, number, row, args.as_slice())?,
        }),
    }
}

fn bound_variable(
    alloc: Global,
    names: &Names,
    number: u32,
    row: &Solution,
    name: &Name,
) -> Result<Expr, Memory>
    ensures { IfOk result (λ e. e ≡ bound_expr (named names.now number) row.now (expr.Variable name.now)) }
{
    match row.get(name) {
        Some(term) => constant(term),
        None => Ok(Expr::Variable(sent_name(alloc, names.place(name), number)?)),
    }
}

fn constant(term: &Term) -> Result<Expr, Memory>
    ensures { IfOk result (λ e. e ≡ expr.Constant term.now) }
{
    Ok(Expr::Constant(term.copy()?))
}

#[cycle(bound)]
fn bound_boxed(
    alloc: Global,
    names: &Names,
    number: u32,
    row: &Solution,
    part: &Boxed<Expr>,
) -> Result<Boxed<Expr>, Memory>
    ensures { IfOk result (λ e. e ≡ bound_expr (named names.now number) row.now part.now) }
{
    Ok(Boxed::new(alloc, bound(alloc, names, number, row, part.get())?)?)
}

#[cycle(bound)]
fn bound_all(
    alloc: Global,
    names: &Names,
    number: u32,
    row: &Solution,
    parts: &[Expr],
) -> Result<Items<Expr>, Memory>
    ensures { IfOk result (λ all. all ≡ map (bound_expr (named names.now number) row.now) parts.now) }
{
    let mut all = Items::new(alloc);
    for part in parts {
        all.push(bound(alloc, names, number, row, part)?)?;
    }
    Ok(all)
}

#[cycle(bound)]
fn bound_signed(
    alloc: Global,
    names: &Names,
    number: u32,
    row: &Solution,
    parts: &[(Sign, Expr)],
) -> Result<Items<(Sign, Expr)>, Memory>
    ensures { IfOk result (λ all. all ≡ map (λ part. (part.0, bound_expr (named names.now number) row.now part.1)) parts.now) }
{
    let mut all = Items::new(alloc);
    for (sign, part) in parts {
        all.push((*sign, bound(alloc, names, number, row, part)?))?;
    }
    Ok(all)
}
