//! Filters that say which IRI a variable is: the look-ups of a run begin with it.
ghost use Rattle.std.specs.Prelude.{◌≡◌, ◌<◌, [], ◌∷◌, All, IfOk, IfSome, OnOk, length};
ghost use Rattle.std.specs.List.{list_any};
ghost use Rattle.fx_algebra.specs.Scopes.{is_among, part_names, pattern_names};
ghost use Rattle.fx_algebra.specs.declared.expressions.Expr.TheVariants.{Variable as VariableExpr, Constant as ConstantExpr};
ghost use Rattle.fx_evaluation.specs.Known as spec;
ghost use Rattle.fx_terms.specs.declared.terms.Term.TheVariants.{Iri as IriTerm};

use fx_algebra::{Compare, Expr, Solution};
use fx_solutions::join_with;
use fx_solutions::known_rows::known_to_rise;
use fx_terms::{Boxed, Iri, Memory, Name, Pattern, PatternTerm, Term};
use std::alloc::Global;

/// Rows that bind the variables of patterns that a condition says to be an IRI, where the first row doesn't yet.
pub(crate) fn with_known(
    alloc: Global,
    rows: Vec<Solution>,
    patterns: &[Pattern],
    conditions: &[Expr],
) -> Result<Vec<Solution>, Memory>
    ensures { IfOk result (λ known. spec.ComeToFewer conditions.now patterns.now known.items rows.items) }
{
    let mut known = rows;
    for place in 0..conditions.len() {
        known = with_condition(alloc, known, patterns, conditions, place)?;
    }
    Ok(known)
}

// The same for the condition at a place.
fn with_condition(
    alloc: Global,
    rows: Vec<Solution>,
    patterns: &[Pattern],
    conditions: &[Expr],
    place: usize,
) -> Result<Vec<Solution>, Memory>
    requires { place < length conditions.now }
    ensures { IfOk result (λ known. spec.ComeToFewer conditions.now patterns.now known.items rows.items) }
{
    if let Some((name, iri)) = known_by(&conditions[place]) {
        if is_free(name, rows.as_slice()) && has_name(patterns, name) {
            known_to_rise(rows.as_slice());
            let table = one_row(alloc, name, iri)?;
            let known = join_with(alloc, rows.as_slice(), table)?;
            return Ok(known);
        }
    }
    Ok(rows)
}

// The one row that binds a name to an IRI.
fn one_row(alloc: Global, name: &Name, iri: &Iri) -> Result<Vec<Solution>, Memory>
    ensures { IfOk result (λ rows. rows.items ≡ ((name.now, IriTerm iri.now) ∷ []) ∷ []) }
{
    let nothing = Solution::empty(alloc);
    let term = Term::Iri(iri.copy()?);
    let row = nothing.with(alloc, name, &term)?;
    let mut rows = Vec::new(alloc);
    rows.push(row)?;
    Ok(rows)
}

// Whether the first row doesn't bind a name.
fn is_free(name: &Name, rows: &[Solution]) -> bool {
    match rows.first() {
        Some(row) => row.get(name).is_none(),
        None => false,
    }
}

/// What a row binds to IRIs, as conditions: each says of one of its variables which IRI it is.
pub(crate) fn known_of(alloc: Global, row: &Solution) -> Result<Vec<Expr>, Memory>
    ensures { IfOk result (λ known. All (spec.IsSaidBy row.now) known.items) }
{
    let mut known = Vec::new(alloc);
    for pair in row.pairs() {
        add_known(alloc, &mut known, row, &pair.0)?;
    }
    Ok(known)
}

// Adds what a row says of a name.
fn add_known(
    alloc: Global,
    known: &mut Vec<Expr>,
    row: &Solution,
    name: &Name,
) -> Result<(), Memory>
    ensures { OnOk result (spec.AreMoreKnown row.now known.old.items known.new.items) }
{
    if let Some(Term::Iri(iri)) = row.get(name) {
        known.push(equal(alloc, name, iri)?.into_inner())?;
    }
    Ok(())
}

// That a variable is an IRI.
fn equal(alloc: Global, name: &Name, iri: &Iri) -> Result<Boxed<Expr>, Memory>
    ensures { IfOk result (λ e. spec.IsSaying e name.now iri.now) }
{
    let left = variable(alloc, name)?;
    let right = constant(alloc, iri)?;
    let op = Compare::Equal;
    Ok(Boxed::new(alloc, Expr::Compare { op, left, right })?)
}

fn variable(alloc: Global, name: &Name) -> Result<Boxed<Expr>, Memory>
    ensures { IfOk result (λ e. e ≡ VariableExpr name.now) }
{
    Ok(Boxed::new(alloc, Expr::Variable(name.copy()?))?)
}

fn constant(alloc: Global, iri: &Iri) -> Result<Boxed<Expr>, Memory>
    ensures { IfOk result (λ e. e ≡ ConstantExpr (IriTerm iri.now)) }
{
    Ok(Boxed::new(alloc, Expr::Constant(Term::Iri(iri.copy()?)))?)
}

/// The variable and the IRI that a condition says it to be.
pub(crate) fn known_by(condition: &Expr) -> Option<(&Name, &Iri)>
    ensures { IfSome result (λ known. spec.IsKnown condition.now known.0.now known.1.now) }
{
    match condition {
        Expr::Compare { op, left, right } => match op {
            Compare::Equal => match left.get() {
                Expr::Variable(name) => match right.get() {
                    Expr::Constant(term) => match term {
                        Term::Iri(iri) => Some((name, iri)),
                        Term::Literal(_) => None,
                    },
                    _ => None,
                },
                _ => None,
            },
            _ => None,
        },
        _ => None,
    }
}

// Whether a name stands in patterns.
fn has_name(patterns: &[Pattern], name: &Name) -> bool
    ensures { result ≡ list_any (λ p. is_among (pattern_names p) name.now) patterns.now }
{
    for pattern in patterns {
        if is_in(pattern, name) {
            return true;
        }
    }
    false
}

fn is_in(pattern: &Pattern, name: &Name) -> bool
    ensures { result ≡ is_among (pattern_names pattern.now) name.now }
{
    is_variable(&pattern.subject, name)
        || is_variable(&pattern.predicate, name)
        || is_variable(&pattern.object, name)
}

fn is_variable(part: &PatternTerm, name: &Name) -> bool
    ensures { result ≡ is_among (part_names part.now) name.now }
{
    match part {
        PatternTerm::Constant(_) => false,
        PatternTerm::Variable(other) => *other == *name,
    }
}
