//! Which filters may be pushed.
ghost use Rattle.std.specs.Prelude.{◌≡◌, nat_le, nat_lt};
ghost use Rattle.fx_algebra.specs.Measures as measure;
ghost use Rattle.fx_algebra.specs.Units as spec;
ghost use Rattle.fx_plan.specs.Conditions.{call_bound, has_names, have_names, most_of, most_of_signed, signed_call_bound, signed_have_names};

use crate::names::Names;
use fx_algebra::{Expr, Function, Sign};
use fx_print::expressions::{is_call, rank};
use std::alloc::Global;

/// Whether a filter may be pushed: it has a variable and no BOUND, and at most 60 brackets are open in it at once where it is
/// printed as an element.
pub(crate) fn is_pushable(alloc: Global, filter: &Expr) -> bool
    ensures { result ≡ spec.is_pushable filter.now }
{
    !has_no_variable(alloc, filter) && !calls_bound(filter) && fits_condition(filter, 60)
}

fn has_no_variable(alloc: Global, expr: &Expr) -> bool
    ensures { result ≡ spec.is_empty (spec.expr_names expr.now) }
{
    has_all(&Names::new(alloc), expr)
}

/// Whether each variable of an expression stands among names.
#[cycle(names)]
pub(crate) fn has_all(names: &Names, expr: &Expr) -> bool
    ensures { result ≡ has_names names.now expr.now }
{
    match expr {
        Expr::Variable(name) => names.has(name),
        Expr::Constant(_) => true,
        Expr::Or(parts) => has_all_of(names, parts.as_slice()),
        Expr::And(parts) => has_all_of(names, parts.as_slice()),
        Expr::Not(part) => has_all(names, part.get()),
        Expr::Positive(part) => has_all(names, part.get()),
        Expr::Negative(part) => has_all(names, part.get()),
        Expr::Compare { op: _, left, right } => {
            has_all(names, left.get()) && has_all(names, right.get())
        }
        Expr::Among {
            negated: _,
            item,
            list,
        } => has_all(names, item.get()) && has_all_of(names, list.as_slice()),
        Expr::Sum { first, rest } => {
            has_all(names, first.get()) && has_all_signed(names, rest.as_slice())
        }
        Expr::Product(parts) => has_all_of(names, parts.as_slice()),
        Expr::Call { function: _, args } => has_all_of(names, args.as_slice()),
    }
}

#[cycle(names)]
fn has_all_of(names: &Names, parts: &[Expr]) -> bool
    ensures { result ≡ have_names names.now parts.now }
{
    for part in parts {
        if !has_all(names, part) {
            return false;
        }
    }
    true
}

#[cycle(names)]
fn has_all_signed(names: &Names, parts: &[(Sign, Expr)]) -> bool
    ensures { result ≡ signed_have_names names.now parts.now }
{
    for (_, part) in parts {
        if !has_all(names, part) {
            return false;
        }
    }
    true
}

/// Whether an expression calls BOUND.
#[cycle(bound)]
fn calls_bound(expr: &Expr) -> bool
    ensures { result ≡ spec.calls_bound expr.now }
{
    match expr {
        Expr::Variable(_) => false,
        Expr::Constant(_) => false,
        Expr::Or(parts) => call_bound(parts.as_slice()),
        Expr::And(parts) => call_bound(parts.as_slice()),
        Expr::Not(part) => calls_bound(part.get()),
        Expr::Positive(part) => calls_bound(part.get()),
        Expr::Negative(part) => calls_bound(part.get()),
        Expr::Compare { op: _, left, right } => calls_bound(left.get()) || calls_bound(right.get()),
        Expr::Among {
            negated: _,
            item,
            list,
        } => calls_bound(item.get()) || call_bound(list.as_slice()),
        Expr::Sum { first, rest } => calls_bound(first.get()) || signed_call_bound(rest.as_slice()),
        Expr::Product(parts) => call_bound(parts.as_slice()),
        Expr::Call { function, args } => is_bound(*function) || call_bound(args.as_slice()),
    }
}

#[cycle(bound)]
fn call_bound(parts: &[Expr]) -> bool
    ensures { result ≡ call_bound parts.now }
{
    for part in parts {
        if calls_bound(part) {
            return true;
        }
    }
    false
}

#[cycle(bound)]
fn signed_call_bound(parts: &[(Sign, Expr)]) -> bool
    ensures { result ≡ signed_call_bound parts.now }
{
    for (_, part) in parts {
        if calls_bound(part) {
            return true;
        }
    }
    false
}

fn is_bound(function: Function) -> bool
    ensures { result ≡ spec.is_bound function }
{
    function == Function::Bound
}

/// Whether at most so many brackets are open at once in an expression where it is printed as a condition.
fn fits_condition(expr: &Expr, room: u64) -> bool
    ensures { result ≡ nat_le (measure.condition_nest (measure.measured expr.now)) room }
{
    if is_call(expr) {
        fits(expr, room)
    } else {
        fits_in_brackets(expr, room)
    }
}

/// Whether at most so many brackets are open at once in an expression.
#[cycle(brackets)]
fn fits(expr: &Expr, room: u64) -> bool
    ensures { result ≡ nat_le (measure.measured expr.now).nest room }
{
    match expr {
        Expr::Variable(_) => true,
        Expr::Constant(_) => true,
        Expr::Or(parts) => fit(parts.as_slice(), 1, room),
        Expr::And(parts) => fit(parts.as_slice(), 2, room),
        Expr::Not(part) => fits_in_place(part.get(), 6, room),
        Expr::Positive(part) => fits_in_place(part.get(), 6, room),
        Expr::Negative(part) => fits_in_place(part.get(), 6, room),
        Expr::Compare { op: _, left, right } => {
            fits_in_place(left.get(), 3, room) && fits_in_place(right.get(), 3, room)
        }
        Expr::Among {
            negated: _,
            item,
            list,
        } => fits_in_place(item.get(), 3, room) && fit_in_brackets(list.as_slice(), room),
        Expr::Sum { first, rest } => {
            fits_in_place(first.get(), 4, room) && signed_fit(rest.as_slice(), room)
        }
        Expr::Product(parts) => fit(parts.as_slice(), 5, room),
        Expr::Call { function: _, args } => fit_in_brackets(args.as_slice(), room),
    }
}

/// The same with brackets round it.
#[cycle(brackets)]
fn fits_in_brackets(expr: &Expr, room: u64) -> bool
    ensures { result ≡ nat_lt (measure.measured expr.now).nest room }
{
    room > 0 && fits(expr, room - 1)
}

/// The same in a place that reaches productions of a rank and above.
#[cycle(brackets)]
#[tactic(auto, unfolding(fx_algebra::specs::Measures::placed))]
fn fits_in_place(expr: &Expr, place: u8, room: u64) -> bool
    ensures { result ≡ nat_le (measure.placed place (measure.measured expr.now)) room }
{
    if place <= rank(expr) {
        fits(expr, room)
    } else {
        fits_in_brackets(expr, room)
    }
}

#[cycle(brackets)]
fn fit(parts: &[Expr], place: u8, room: u64) -> bool
    ensures { result ≡ nat_le (most_of place parts.now) room }
{
    for part in parts {
        if !fits_in_place(part, place, room) {
            return false;
        }
    }
    true
}

#[cycle(brackets)]
fn fit_in_brackets(parts: &[Expr], room: u64) -> bool
    ensures { result ≡ nat_lt (most_of 0 parts.now) room }
{
    room > 0 && fit(parts, 0, room - 1)
}

#[cycle(brackets)]
fn signed_fit(parts: &[(Sign, Expr)], room: u64) -> bool
    ensures { result ≡ nat_le (most_of_signed parts.now) room }
{
    for (_, part) in parts {
        if !fits_in_place(part, 4, room) {
            return false;
        }
    }
    true
}
