//! Filters under the names in the text.
ghost use Rattle.std.specs.Prelude.{◌≡◌, [], IfOk, map};
ghost use Rattle.fx_algebra.specs.declared.expressions.Expr.TheVariants as expr;
ghost use Rattle.fx_renaming.specs.Branches.{bound_expr};
ghost use Rattle.fx_values.specs.Values.{named};

use crate::names::{Names, sent_name};
use fx_algebra::{Expr, Sign};
use fx_terms::{Boxed, Items, Memory, Name};
use std::alloc::Global;

/// A filter with the other name of each variable.
pub(crate) fn renamed_filter(
    alloc: Global,
    names: &Names,
    filter: &Expr,
) -> Result<Boxed<Expr>, Memory>
    ensures { IfOk result (λ e. e ≡ bound_expr (named names.now) [] filter.now) }
{
    Ok(Boxed::new(alloc, renamed(alloc, names, filter)?)?)
}

#[cycle(renamed)]
fn renamed(alloc: Global, names: &Names, expr: &Expr) -> Result<Expr, Memory>
    ensures { IfOk result (λ e. e ≡ bound_expr (named names.now) [] expr.now) }
{
    match expr {
        Expr::Variable(name) => renamed_variable(alloc, names, name),
        Expr::Constant(term) => Ok(Expr::Constant(term.copy()?)),
        Expr::Or(parts) => Ok(Expr::Or(renamed_all(alloc, names, parts.as_slice())?)),
        Expr::And(parts) => Ok(Expr::And(renamed_all(alloc, names, parts.as_slice())?)),
        Expr::Not(part) => Ok(Expr::Not(renamed_boxed(alloc, names, part)?)),
        Expr::Positive(part) => Ok(Expr::Positive(renamed_boxed(alloc, names, part)?)),
        Expr::Negative(part) => Ok(Expr::Negative(renamed_boxed(alloc, names, part)?)),
        Expr::Compare { op, left, right } => Ok(Expr::Compare {
            op: *op,
            left: renamed_boxed(alloc, names, left)?,
            right: renamed_boxed(alloc, names, right)?,
        }),
        Expr::Among {
            negated,
            item,
            list,
        } => Ok(Expr::Among {
            negated: *negated,
            item: renamed_boxed(alloc, names, item)?,
            list: renamed_all(alloc, names, list.as_slice())?,
        }),
        Expr::Sum { first, rest } => Ok(Expr::Sum {
            first: renamed_boxed(alloc, names, first)?,
            rest: renamed_signed(alloc, names, rest.as_slice())?,
        }),
        Expr::Product(parts) => Ok(Expr::Product(renamed_all(alloc, names, parts.as_slice())?)),
        Expr::Call { function, args } => Ok(Expr::Call {
            function: *function,
            args: renamed_all(alloc, names, args.as_slice())?,
        }),
    }
}

fn renamed_variable(alloc: Global, names: &Names, name: &Name) -> Result<Expr, Memory>
    ensures { IfOk result (λ e. e ≡ expr.Variable (named names.now name.now)) }
{
    Ok(Expr::Variable(sent_name(alloc, names.place(name))?))
}

#[cycle(renamed)]
fn renamed_boxed(alloc: Global, names: &Names, part: &Boxed<Expr>) -> Result<Boxed<Expr>, Memory>
    ensures { IfOk result (λ e. e ≡ bound_expr (named names.now) [] part.now) }
{
    Ok(Boxed::new(alloc, renamed(alloc, names, part.get())?)?)
}

#[cycle(renamed)]
fn renamed_all(alloc: Global, names: &Names, parts: &[Expr]) -> Result<Items<Expr>, Memory>
    ensures { IfOk result (λ all. all ≡ map (bound_expr (named names.now) []) parts.now) }
{
    let mut all = Items::new(alloc);
    for part in parts {
        all.push(renamed(alloc, names, part)?)?;
    }
    Ok(all)
}

#[cycle(renamed)]
fn renamed_signed(
    alloc: Global,
    names: &Names,
    parts: &[(Sign, Expr)],
) -> Result<Items<(Sign, Expr)>, Memory>
    ensures { IfOk result (λ all. all ≡ map (λ part. (part.0, bound_expr (named names.now) [] part.1)) parts.now) }
{
    let mut all = Items::new(alloc);
    for (sign, part) in parts {
        all.push((*sign, renamed(alloc, names, part)?))?;
    }
    Ok(all)
}
