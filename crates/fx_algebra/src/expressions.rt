//! Expressions (SPARQL 1.1 section 17), as trees.
ghost use Rattle.std.specs.Prelude.{◌≡◌, IfOk};

use fx_terms::{Boxed, Items, Memory, Name, Term};
use std::alloc::Global;

/// A comparison.
#[derive(Clone, Copy, PartialEq, Eq)]
pub enum Compare {
    Equal,
    NotEqual,
    Less,
    Greater,
    LessOrEqual,
    GreaterOrEqual,
}

/// The sign before a part of a sum.
#[derive(Clone, Copy, PartialEq, Eq)]
pub enum Sign {
    Plus,
    Minus,
}

/// A function that an expression may call.
#[derive(Clone, Copy, PartialEq, Eq)]
pub enum Function {
    Bound,
    Coalesce,
    If,
    Str,
    Lang,
    Datatype,
    StrLen,
    IsIri,
    IsLiteral,
    IsBlank,
    IsNumeric,
    LangMatches,
    SameTerm,
    Contains,
    StrStarts,
    StrEnds,
}

/// An expression.
#[derive(Drop)]
pub enum Expr {
    Variable(Name),
    Constant(Term),
    /// True where one part is; two parts at least.
    Or(Items<Expr>),
    /// True where all parts are; two parts at least.
    And(Items<Expr>),
    Not(Boxed<Expr>),
    Positive(Boxed<Expr>),
    Negative(Boxed<Expr>),
    Compare {
        op: Compare,
        left: Boxed<Expr>,
        right: Boxed<Expr>,
    },
    /// `IN`, or `NOT IN` where it is negated.
    Among {
        negated: bool,
        item: Boxed<Expr>,
        list: Items<Expr>,
    },
    Sum {
        first: Boxed<Expr>,
        rest: Items<(Sign, Expr)>,
    },
    /// Two parts at least.
    Product(Items<Expr>),
    Call {
        function: Function,
        args: Items<Expr>,
    },
}

impl Expr {
    /// An equal expression, which shares the texts.
    #[cycle(copy)]
    pub fn copy(&self, alloc: Global) -> Result<Expr, Memory>
        ensures { IfOk result (λ copy. copy ≡ self.now) }
    {
        match self {
            Expr::Variable(name) => copy_variable(name),
            Expr::Constant(term) => copy_constant(term),
            Expr::Or(parts) => Ok(Expr::Or(copy_all(alloc, parts.as_slice())?)),
            Expr::And(parts) => Ok(Expr::And(copy_all(alloc, parts.as_slice())?)),
            Expr::Not(part) => Ok(Expr::Not(copy_boxed(alloc, part)?)),
            Expr::Positive(part) => Ok(Expr::Positive(copy_boxed(alloc, part)?)),
            Expr::Negative(part) => Ok(Expr::Negative(copy_boxed(alloc, part)?)),
            Expr::Compare { op, left, right } => Ok(Expr::Compare {
                op: *op,
                left: copy_boxed(alloc, left)?,
                right: copy_boxed(alloc, right)?,
            }),
            Expr::Among {
                negated,
                item,
                list,
            } => Ok(Expr::Among {
                negated: *negated,
                item: copy_boxed(alloc, item)?,
                list: copy_all(alloc, list.as_slice())?,
            }),
            Expr::Sum { first, rest } => Ok(Expr::Sum {
                first: copy_boxed(alloc, first)?,
                rest: copy_signed(alloc, rest.as_slice())?,
            }),
            Expr::Product(parts) => Ok(Expr::Product(copy_all(alloc, parts.as_slice())?)),
            Expr::Call { function, args } => Ok(Expr::Call {
                function: *function,
                args: copy_all(alloc, args.as_slice())?,
            }),
        }
    }
}

fn copy_variable(name: &Name) -> Result<Expr, Memory>
    ensures { IfOk result (λ copy. copy ≡ Expr.Variable name.now) }
{
    Ok(Expr::Variable(name.copy()?))
}

fn copy_constant(term: &Term) -> Result<Expr, Memory>
    ensures { IfOk result (λ copy. copy ≡ Expr.Constant term.now) }
{
    Ok(Expr::Constant(term.copy()?))
}

#[cycle(copy)]
fn copy_boxed(alloc: Global, part: &Boxed<Expr>) -> Result<Boxed<Expr>, Memory>
    ensures { IfOk result (λ copy. copy ≡ part.now) }
{
    Ok(Boxed::new(alloc, part.get().copy(alloc)?)?)
}

#[cycle(copy)]
fn copy_all(alloc: Global, parts: &[Expr]) -> Result<Items<Expr>, Memory>
    ensures { IfOk result (λ copies. copies ≡ parts.now) }
{
    let mut copies = Items::new(alloc);
    for part in parts {
        copies.push(part.copy(alloc)?)?;
    }
    Ok(copies)
}

#[cycle(copy)]
fn copy_signed(alloc: Global, parts: &[(Sign, Expr)]) -> Result<Items<(Sign, Expr)>, Memory>
    ensures { IfOk result (λ copies. copies ≡ parts.now) }
{
    let mut copies = Items::new(alloc);
    for (sign, part) in parts {
        copies.push((*sign, part.copy(alloc)?))?;
    }
    Ok(copies)
}
