//! Expressions are printed.
ghost use Rattle.std.specs.Prelude.{◌≡◌, ◌++◌, ◌∷◌, OnOk, map, string_bytes};
ghost use Rattle.fx_algebra.specs.Printed as spec;

use crate::words::{push_fixed, push_term, push_variable};
use fx_algebra::{Compare, Expr, Function, Sign};
use fx_terms::Memory;

// The rank of each place: what stands there without brackets has this rank at least.
const ANY: u8 = 0;

const CONJUNCTION: u8 = 1;

const RELATION: u8 = 2;

const SUM: u8 = 3;

const PRODUCT: u8 = 4;

const UNARY: u8 = 5;

const PRIMARY: u8 = 6;

/// How tightly the production of an expression binds: from a disjunction, 0, to a primary expression, 6.
pub fn rank(expr: &Expr) -> u8
    ensures { result ≡ spec.rank (spec.printed expr.now).level }
{
    match expr {
        Expr::Or(_) => ANY,
        Expr::And(_) => CONJUNCTION,
        Expr::Compare {
            op: _,
            left: _,
            right: _,
        } => RELATION,
        Expr::Among {
            negated: _,
            item: _,
            list: _,
        } => RELATION,
        Expr::Sum { first: _, rest: _ } => SUM,
        Expr::Product(_) => PRODUCT,
        Expr::Not(_) => UNARY,
        Expr::Positive(_) => UNARY,
        Expr::Negative(_) => UNARY,
        Expr::Variable(_) => PRIMARY,
        Expr::Constant(_) => PRIMARY,
        Expr::Call {
            function: _,
            args: _,
        } => PRIMARY,
    }
}

/// Whether an expression is a call.
pub fn is_call(expr: &Expr) -> bool
    ensures { result ≡ spec.is_call (spec.printed expr.now).level }
{
    matches!(
        expr,
        Expr::Call {
            function: _,
            args: _
        }
    )
}

/// Whether an expression is a variable.
pub(crate) fn is_variable(expr: &Expr) -> bool
    ensures { result ≡ spec.is_variable (spec.printed expr.now).level }
{
    matches!(expr, Expr::Variable(_))
}

/// An expression in brackets.
#[cycle(print)]
pub fn push_bracketed(text: &mut String, expr: &Expr) -> Result<(), Memory>
    ensures { OnOk result (string_bytes text.new ≡ string_bytes text.old ++ spec.spaced (spec.in_brackets (spec.printed expr.now).words)) }
{
    push_fixed(text, "(")?;
    push_expr(text, expr)?;
    push_fixed(text, ")")
}

/// An expression in a place that reaches productions of a rank and above: with brackets where its own is below.
#[tactic(auto, unfolding(fx_algebra::specs::Printed::in_place))]
#[cycle(print)]
fn push_in_place(text: &mut String, place: u8, expr: &Expr) -> Result<(), Memory>
    ensures { OnOk result (string_bytes text.new ≡ string_bytes text.old ++ spec.spaced (spec.in_place place (spec.printed expr.now))) }
{
    if place <= rank(expr) {
        push_expr(text, expr)
    } else {
        push_bracketed(text, expr)
    }
}

/// An expression, without brackets round it.
#[cycle(print)]
pub fn push_expr(text: &mut String, expr: &Expr) -> Result<(), Memory>
    ensures { OnOk result (string_bytes text.new ≡ string_bytes text.old ++ spec.spaced (spec.printed expr.now).words) }
{
    match expr {
        Expr::Variable(name) => push_variable(text, name),
        Expr::Constant(term) => push_term(text, term),
        Expr::Or(parts) => push_chain(text, "||", CONJUNCTION, parts.as_slice()),
        Expr::And(parts) => push_chain(text, "&&", RELATION, parts.as_slice()),
        Expr::Not(part) => push_unary(text, "!", part.get()),
        Expr::Positive(part) => push_unary(text, "+", part.get()),
        Expr::Negative(part) => push_unary(text, "-", part.get()),
        Expr::Compare { op, left, right } => {
            push_in_place(text, SUM, left.get())?;
            push_fixed(text, comparison(*op))?;
            push_in_place(text, SUM, right.get())
        }
        Expr::Among {
            negated,
            item,
            list,
        } => {
            push_in_place(text, SUM, item.get())?;
            push_among(text, *negated)?;
            push_list(text, list.as_slice())
        }
        Expr::Sum { first, rest } => {
            push_in_place(text, PRODUCT, first.get())?;
            push_signed(text, rest.as_slice())
        }
        Expr::Product(parts) => push_chain(text, "*", UNARY, parts.as_slice()),
        Expr::Call { function, args } => {
            push_fixed(text, keyword(*function))?;
            push_list(text, args.as_slice())
        }
    }
}

#[cycle(print)]
fn push_unary(text: &mut String, mark: &str, part: &Expr) -> Result<(), Memory>
    ensures { OnOk result (string_bytes text.new ≡ string_bytes text.old ++ spec.spaced (spec.fixed mark.now ∷ spec.in_place 6 (spec.printed part.now))) }
{
    push_fixed(text, mark)?;
    push_in_place(text, PRIMARY, part)
}

// Expressions with a mark between.
#[cycle(print)]
fn push_chain(text: &mut String, mark: &str, place: u8, parts: &[Expr]) -> Result<(), Memory>
    ensures { OnOk result (string_bytes text.new ≡ string_bytes text.old ++ spec.spaced (spec.chained (spec.fixed mark.now) place (map spec.printed parts.now))) }
{
    let mut is_first = true;
    for part in parts {
        if is_first {
            is_first = false;
        } else {
            push_fixed(text, mark)?;
        }
        push_in_place(text, place, part)?;
    }
    Ok(())
}

// Expressions in brackets, with commas between.
#[cycle(print)]
fn push_list(text: &mut String, parts: &[Expr]) -> Result<(), Memory>
    ensures { OnOk result (string_bytes text.new ≡ string_bytes text.old ++ spec.spaced (spec.listed (map spec.printed parts.now))) }
{
    push_fixed(text, "(")?;
    push_chain(text, ",", ANY, parts)?;
    push_fixed(text, ")")
}

// What stands behind the first part of a sum.
#[cycle(print)]
fn push_signed(text: &mut String, parts: &[(Sign, Expr)]) -> Result<(), Memory>
    ensures { OnOk result (string_bytes text.new ≡ string_bytes text.old ++ spec.spaced (spec.signed (map (λ part. (part.0, spec.printed part.1)) parts.now))) }
{
    for (sign, part) in parts {
        push_fixed(text, sign_mark(*sign))?;
        push_in_place(text, PRODUCT, part)?;
    }
    Ok(())
}

fn push_among(text: &mut String, negated: bool) -> Result<(), Memory>
    ensures { OnOk result (string_bytes text.new ≡ string_bytes text.old ++ spec.spaced (spec.among negated)) }
{
    if negated {
        push_fixed(text, "NOT")?;
    }
    push_fixed(text, "IN")
}

fn comparison(op: Compare) -> &'static str
    ensures { result.now ≡ spec.comparison op }
{
    match op {
        Compare::Equal => "=",
        Compare::NotEqual => "!=",
        Compare::Less => "<",
        Compare::Greater => ">",
        Compare::LessOrEqual => "<=",
        Compare::GreaterOrEqual => ">=",
    }
}

fn sign_mark(sign: Sign) -> &'static str
    ensures { result.now ≡ spec.sign sign }
{
    match sign {
        Sign::Plus => "+",
        Sign::Minus => "-",
    }
}

fn keyword(function: Function) -> &'static str
    ensures { result.now ≡ spec.keyword function }
{
    match function {
        Function::Bound => "BOUND",
        Function::Coalesce => "COALESCE",
        Function::If => "IF",
        Function::Str => "STR",
        Function::Lang => "LANG",
        Function::Datatype => "DATATYPE",
        Function::StrLen => "STRLEN",
        Function::IsIri => "isIRI",
        Function::IsLiteral => "isLITERAL",
        Function::IsBlank => "isBLANK",
        Function::IsNumeric => "isNUMERIC",
        Function::LangMatches => "LANGMATCHES",
        Function::SameTerm => "sameTerm",
        Function::Contains => "CONTAINS",
        Function::StrStarts => "STRSTARTS",
        Function::StrEnds => "STRENDS",
    }
}
