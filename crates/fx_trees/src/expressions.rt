//! Expressions, made of their parts.
ghost use Rattle.std.specs.Prelude.{◌≡◌, ◌++◌, IfOk, OnOk, [], ◌∷◌};
ghost use Rattle.fx_grammar.specs.Grammar as grammar;

use fx_algebra::{Expr, Function, Sign};
use fx_grammar::Relative;
use fx_terms::{Boxed, Iri, Items, Name, Term};
use std::alloc::{AllocError, Global};

/// One more part, behind those that were there.
pub fn add_part(parts: &mut Items<Expr>, next: Boxed<Expr>) -> Result<(), AllocError>
    ensures { OnOk result (parts.new ≡ parts.old ++ next ∷ []) }
{
    parts.push(next.into_inner())
}

/// One more part of a sum, behind those that were there.
pub fn add_signed(
    parts: &mut Items<(Sign, Expr)>,
    sign: Sign,
    next: Boxed<Expr>,
) -> Result<(), AllocError>
    ensures { OnOk result (parts.new ≡ parts.old ++ (sign, next) ∷ []) }
{
    parts.push((sign, next.into_inner()))
}

/// One part.
pub fn one(alloc: Global, part: Boxed<Expr>) -> Result<Items<Expr>, AllocError>
    ensures { IfOk result (λ parts. parts ≡ part ∷ []) }
{
    let mut parts = Items::new(alloc);
    add_part(&mut parts, part)?;
    Ok(parts)
}

/// Two parts.
pub fn two(
    alloc: Global,
    first: Boxed<Expr>,
    second: Boxed<Expr>,
) -> Result<Items<Expr>, AllocError>
    ensures { IfOk result (λ parts. parts ≡ first ∷ second ∷ []) }
{
    let mut parts = Items::new(alloc);
    add_part(&mut parts, first)?;
    add_part(&mut parts, second)?;
    Ok(parts)
}

/// Three parts.
pub fn three(
    alloc: Global,
    first: Boxed<Expr>,
    second: Boxed<Expr>,
    third: Boxed<Expr>,
) -> Result<Items<Expr>, AllocError>
    ensures { IfOk result (λ parts. parts ≡ first ∷ second ∷ third ∷ []) }
{
    let mut parts = Items::new(alloc);
    add_part(&mut parts, first)?;
    add_part(&mut parts, second)?;
    add_part(&mut parts, third)?;
    Ok(parts)
}

/// A chain of `||`, or its only part.
pub fn one_or_disjunction(alloc: Global, mut parts: Items<Expr>) -> Result<Boxed<Expr>, AllocError>
    ensures { IfOk result (λ e. e ≡ grammar.one_or Expr.Or parts) }
{
    if parts.len() == 1 {
        return Boxed::new(alloc, parts.remove(0));
    }
    Boxed::new(alloc, Expr::Or(parts))
}

/// A chain of `&&`, or its only part.
pub fn one_or_conjunction(alloc: Global, mut parts: Items<Expr>) -> Result<Boxed<Expr>, AllocError>
    ensures { IfOk result (λ e. e ≡ grammar.one_or Expr.And parts) }
{
    if parts.len() == 1 {
        return Boxed::new(alloc, parts.remove(0));
    }
    Boxed::new(alloc, Expr::And(parts))
}

/// A product, or its only factor.
pub fn one_or_product(alloc: Global, mut parts: Items<Expr>) -> Result<Boxed<Expr>, AllocError>
    ensures { IfOk result (λ e. e ≡ grammar.one_or Expr.Product parts) }
{
    if parts.len() == 1 {
        return Boxed::new(alloc, parts.remove(0));
    }
    Boxed::new(alloc, Expr::Product(parts))
}

/// A sum, or its only part.
pub fn summed(
    alloc: Global,
    first: Boxed<Expr>,
    rest: Items<(Sign, Expr)>,
) -> Result<Boxed<Expr>, AllocError>
    ensures { IfOk result (λ e. e ≡ grammar.summed first rest) }
{
    if rest.is_empty() {
        return Ok(first);
    }
    Boxed::new(alloc, Expr::Sum { first, rest })
}

/// What a relation compares, or its left side alone.
pub fn related(
    alloc: Global,
    left: Boxed<Expr>,
    rest: Option<Relative>,
) -> Result<Boxed<Expr>, AllocError>
    ensures { IfOk result (λ e. e ≡ grammar.related left rest) }
{
    match rest {
        None => Ok(left),
        Some(Relative::Compared { op, right }) => {
            Boxed::new(alloc, Expr::Compare { op, left, right })
        }
        Some(Relative::Among { negated, list }) => Boxed::new(
            alloc,
            Expr::Among {
                negated,
                item: left,
                list,
            },
        ),
    }
}

/// A term.
pub fn constant(alloc: Global, term: Boxed<Term>) -> Result<Boxed<Expr>, AllocError>
    ensures { IfOk result (λ e. e ≡ Expr.Constant term) }
{
    Boxed::new(alloc, Expr::Constant(term.into_inner()))
}

/// An IRI.
pub fn known_by(alloc: Global, iri: Iri) -> Result<Boxed<Expr>, AllocError>
    ensures { IfOk result (λ e. e ≡ Expr.Constant (Term.Iri iri)) }
{
    Boxed::new(alloc, Expr::Constant(Term::Iri(iri)))
}

/// `!` before a part.
pub fn negation(alloc: Global, part: Boxed<Expr>) -> Result<Boxed<Expr>, AllocError>
    ensures { IfOk result (λ e. e ≡ Expr.Not part) }
{
    Boxed::new(alloc, Expr::Not(part))
}

/// `+` before a part.
pub fn positive(alloc: Global, part: Boxed<Expr>) -> Result<Boxed<Expr>, AllocError>
    ensures { IfOk result (λ e. e ≡ Expr.Positive part) }
{
    Boxed::new(alloc, Expr::Positive(part))
}

/// `-` before a part.
pub fn negative(alloc: Global, part: Boxed<Expr>) -> Result<Boxed<Expr>, AllocError>
    ensures { IfOk result (λ e. e ≡ Expr.Negative part) }
{
    Boxed::new(alloc, Expr::Negative(part))
}

/// A call.
pub fn called(
    alloc: Global,
    function: Function,
    args: Items<Expr>,
) -> Result<Boxed<Expr>, AllocError>
    ensures { IfOk result (λ e. e ≡ Expr.Call function args) }
{
    Boxed::new(alloc, Expr::Call { function, args })
}

/// A variable.
pub fn named(alloc: Global, name: Name) -> Result<Boxed<Expr>, AllocError>
    ensures { IfOk result (λ e. e ≡ Expr.Variable name) }
{
    Boxed::new(alloc, Expr::Variable(name))
}
