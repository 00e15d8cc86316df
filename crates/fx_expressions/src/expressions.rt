//! Expressions. `depth` says how many more expressions may stand within one another.
ghost use Rattle.std.specs.Prelude.{◌≡◌, ℕ};
ghost use Rattle.fx_grammar.specs.Rule as rule;
ghost use Rattle.fx_grammar.specs.Grammar as grammar;
ghost use Rattle.fx_readers.specs.Gives.{Gives};

use fx_algebra::{Expr, Function, Sign};
use fx_grammar::{Kind, Relative, SyntaxKind, Token};
use fx_readers::{
    Fault, Prefixes, comparison, iri_name, lacks, literal, mark, one_function, refuse, sees,
    sees_iri_name, signed, two_function, variable,
};
use fx_terms::{Boxed, Items};
use fx_trees::expressions::{
    add_part, add_signed, called, constant, known_by, named, negation, negative, one,
    one_or_conjunction, one_or_disjunction, one_or_product, positive, related, summed, three, two,
};
use std::alloc::Global;

/// The next token is one with which a call begins, or the name of a function that this profile leaves out.
#[tactic(auto, unfolding(fx_grammar::specs::Grammar::call, fx_grammar::specs::Grammar::bound_call, fx_grammar::specs::Grammar::coalesce_call, fx_grammar::specs::Grammar::if_call, fx_grammar::specs::Grammar::one_call, fx_grammar::specs::Grammar::two_call))]
pub fn sees_call(tokens: &[Token]) -> bool
    ensures { (ps : grammar.Prefixes) (n : ℕ) → result ≡ rule.sees (grammar.call (grammar.expression ps n)).begins tokens.now }
{
    sees(tokens, Kind::Bound)
        || sees(tokens, Kind::Coalesce)
        || sees(tokens, Kind::If)
        || sees(tokens, Kind::One)
        || sees(tokens, Kind::Two)
        || sees_other_call(tokens)
}

fn sees_other_call(tokens: &[Token]) -> bool
    ensures { result ≡ rule.sees grammar.is_other_call tokens.now }
{
    sees(tokens, Kind::OtherCall) || sees(tokens, Kind::Not)
}

#[tactic(auto, unfolding(fx_grammar::specs::Grammar::primary_iri, fx_grammar::specs::Grammar::no_call))]
fn primary_iri<'a>(
    alloc: Global,
    tokens: &'a [Token],
    prefixes: &Prefixes,
) -> Result<(Boxed<Expr>, &'a [Token]), Fault>
    ensures { Gives (λ x. (x.0, x.1.now)) result ((grammar.primary_iri prefixes.now).read tokens.now) }
{
    let (iri, rest) = iri_name(alloc, tokens, prefixes)?;
    lacks(rest, Kind::LeftParen)?;
    let expr = known_by(alloc, iri)?;
    Ok((expr, rest))
}

#[tactic(auto, unfolding(fx_grammar::specs::Grammar::primary_literal))]
fn primary_literal<'a>(
    alloc: Global,
    tokens: &'a [Token],
    prefixes: &Prefixes,
) -> Result<(Boxed<Expr>, &'a [Token]), Fault>
    ensures { Gives (λ x. (x.0, x.1.now)) result ((grammar.primary_literal prefixes.now).read tokens.now) }
{
    let (term, rest) = literal(alloc, tokens, prefixes, true)?;
    let expr = constant(alloc, term)?;
    Ok((expr, rest))
}

/// A variable.
pub fn variable_expression(
    alloc: Global,
    tokens: &[Token],
) -> Result<(Boxed<Expr>, &[Token]), Fault>
    ensures { Gives (λ x. (x.0, x.1.now)) result ((rule.made Expr.Variable grammar.variable).read tokens.now) }
{
    let (name, rest) = variable(tokens)?;
    let expr = named(alloc, name)?;
    Ok((expr, rest))
}

#[tactic(auto, unfolding(fx_grammar::specs::Grammar::bound_call))]
fn bound_call(alloc: Global, tokens: &[Token]) -> Result<(Boxed<Expr>, &[Token]), Fault>
    ensures { Gives (λ x. (x.0, x.1.now)) result (grammar.bound_call.read tokens.now) }
{
    let rest = mark(tokens, Kind::Bound)?;
    let rest = mark(rest, Kind::LeftParen)?;
    let (name, rest) = variable(rest)?;
    let rest = mark(rest, Kind::RightParen)?;
    let arg = named(alloc, name)?;
    let args = one(alloc, arg)?;
    let call = called(alloc, Function::Bound, args)?;
    Ok((call, rest))
}

/// An expression.
#[cycle(expressions)]
pub fn expression<'a>(
    alloc: Global,
    tokens: &'a [Token],
    prefixes: &Prefixes,
    depth: u32,
) -> Result<(Boxed<Expr>, &'a [Token]), Fault>
    ensures { Gives (λ x. (x.0, x.1.now)) result ((grammar.expression prefixes.now depth).read tokens.now) }
{
    if depth == 0 {
        return Err(refuse(SyntaxKind::Unexpected, tokens));
    }
    disjunction(alloc, tokens, prefixes, depth - 1)
}

/// An expression between brackets.
#[cycle(expressions)]
pub fn parens<'a>(
    alloc: Global,
    tokens: &'a [Token],
    prefixes: &Prefixes,
    depth: u32,
) -> Result<(Boxed<Expr>, &'a [Token]), Fault>
    ensures { Gives (λ x. (x.0, x.1.now)) result ((grammar.parens (grammar.expression prefixes.now depth)).read tokens.now) }
{
    let rest = mark(tokens, Kind::LeftParen)?;
    let (inner, rest) = expression(alloc, rest, prefixes, depth)?;
    let rest = mark(rest, Kind::RightParen)?;
    Ok((inner, rest))
}

// What follows the first of a list, with those before it in `parts`.
#[cycle(expressions)]
fn list_more<'a>(
    alloc: Global,
    mut parts: Items<Expr>,
    tokens: &'a [Token],
    prefixes: &Prefixes,
    depth: u32,
) -> Result<(Items<Expr>, &'a [Token]), Fault>
    ensures { Gives (λ x. (x.0, x.1.now)) result (rule.with_front parts (rule.more Kind.Comma (grammar.expression prefixes.now depth) tokens.now)) }
{
    let mut rest = tokens;
    'more: while sees(rest, Kind::Comma) {
        let after = mark(rest, Kind::Comma)?;
        let (next, after) = expression(alloc, after, prefixes, depth)?;
        add_part(&mut parts, next)?;
        rest = after;
    }
    Ok((parts, rest))
}

// One expression or more, with commas between.
#[cycle(expressions)]
fn some_list<'a>(
    alloc: Global,
    tokens: &'a [Token],
    prefixes: &Prefixes,
    depth: u32,
) -> Result<(Items<Expr>, &'a [Token]), Fault>
    ensures { Gives (λ x. (x.0, x.1.now)) result ((rule.chain Kind.Comma (grammar.expression prefixes.now depth)).read tokens.now) }
{
    let (first, rest) = expression(alloc, tokens, prefixes, depth)?;
    let parts = one(alloc, first)?;
    list_more(alloc, parts, rest, prefixes, depth)
}

#[tactic(auto, unfolding(fx_grammar::specs::Grammar::list))]
#[cycle(expressions)]
fn list<'a>(
    alloc: Global,
    tokens: &'a [Token],
    prefixes: &Prefixes,
    depth: u32,
) -> Result<(Items<Expr>, &'a [Token]), Fault>
    ensures { Gives (λ x. (x.0, x.1.now)) result ((grammar.list (grammar.expression prefixes.now depth)).read tokens.now) }
{
    let rest = mark(tokens, Kind::LeftParen)?;
    if sees(rest, Kind::RightParen) {
        let rest = mark(rest, Kind::RightParen)?;
        return Ok((Items::new(alloc), rest));
    }
    let (parts, rest) = some_list(alloc, rest, prefixes, depth)?;
    let rest = mark(rest, Kind::RightParen)?;
    Ok((parts, rest))
}

#[tactic(auto, unfolding(fx_grammar::specs::Grammar::coalesce_call))]
#[cycle(expressions)]
fn coalesce_call<'a>(
    alloc: Global,
    tokens: &'a [Token],
    prefixes: &Prefixes,
    depth: u32,
) -> Result<(Boxed<Expr>, &'a [Token]), Fault>
    ensures { Gives (λ x. (x.0, x.1.now)) result ((grammar.coalesce_call (grammar.expression prefixes.now depth)).read tokens.now) }
{
    let rest = mark(tokens, Kind::Coalesce)?;
    let (args, rest) = list(alloc, rest, prefixes, depth)?;
    let call = called(alloc, Function::Coalesce, args)?;
    Ok((call, rest))
}

#[tactic(auto, unfolding(fx_grammar::specs::Grammar::two_args))]
#[cycle(expressions)]
fn two_args<'a>(
    alloc: Global,
    tokens: &'a [Token],
    prefixes: &Prefixes,
    depth: u32,
) -> Result<(Boxed<Expr>, Boxed<Expr>, &'a [Token]), Fault>
    ensures { Gives (λ x. ((x.0, x.1), x.2.now)) result ((grammar.two_args (grammar.expression prefixes.now depth)).read tokens.now) }
{
    let (first, rest) = expression(alloc, tokens, prefixes, depth)?;
    let rest = mark(rest, Kind::Comma)?;
    let (second, rest) = expression(alloc, rest, prefixes, depth)?;
    Ok((first, second, rest))
}

#[tactic(auto, unfolding(fx_grammar::specs::Grammar::if_call))]
#[cycle(expressions)]
fn if_call<'a>(
    alloc: Global,
    tokens: &'a [Token],
    prefixes: &Prefixes,
    depth: u32,
) -> Result<(Boxed<Expr>, &'a [Token]), Fault>
    ensures { Gives (λ x. (x.0, x.1.now)) result ((grammar.if_call (grammar.expression prefixes.now depth)).read tokens.now) }
{
    let rest = mark(tokens, Kind::If)?;
    let rest = mark(rest, Kind::LeftParen)?;
    let (condition, rest) = expression(alloc, rest, prefixes, depth)?;
    let rest = mark(rest, Kind::Comma)?;
    let (yes, no, rest) = two_args(alloc, rest, prefixes, depth)?;
    let rest = mark(rest, Kind::RightParen)?;
    let args = three(alloc, condition, yes, no)?;
    let call = called(alloc, Function::If, args)?;
    Ok((call, rest))
}

#[tactic(auto, unfolding(fx_grammar::specs::Grammar::one_call))]
#[cycle(expressions)]
fn one_call<'a>(
    alloc: Global,
    tokens: &'a [Token],
    prefixes: &Prefixes,
    depth: u32,
) -> Result<(Boxed<Expr>, &'a [Token]), Fault>
    ensures { Gives (λ x. (x.0, x.1.now)) result ((grammar.one_call (grammar.expression prefixes.now depth)).read tokens.now) }
{
    let (function, rest) = one_function(tokens)?;
    let (arg, rest) = parens(alloc, rest, prefixes, depth)?;
    let args = one(alloc, arg)?;
    let call = called(alloc, function, args)?;
    Ok((call, rest))
}

#[tactic(auto, unfolding(fx_grammar::specs::Grammar::two_call))]
#[cycle(expressions)]
fn two_call<'a>(
    alloc: Global,
    tokens: &'a [Token],
    prefixes: &Prefixes,
    depth: u32,
) -> Result<(Boxed<Expr>, &'a [Token]), Fault>
    ensures { Gives (λ x. (x.0, x.1.now)) result ((grammar.two_call (grammar.expression prefixes.now depth)).read tokens.now) }
{
    let (function, rest) = two_function(tokens)?;
    let rest = mark(rest, Kind::LeftParen)?;
    let (first, second, rest) = two_args(alloc, rest, prefixes, depth)?;
    let rest = mark(rest, Kind::RightParen)?;
    let args = two(alloc, first, second)?;
    let call = called(alloc, function, args)?;
    Ok((call, rest))
}

/// A call of a function.
#[tactic(auto, unfolding(fx_grammar::specs::Grammar::call, fx_grammar::specs::Grammar::bound_call, fx_grammar::specs::Grammar::coalesce_call, fx_grammar::specs::Grammar::if_call, fx_grammar::specs::Grammar::one_call, fx_grammar::specs::Grammar::two_call))]
#[cycle(expressions)]
pub fn call<'a>(
    alloc: Global,
    tokens: &'a [Token],
    prefixes: &Prefixes,
    depth: u32,
) -> Result<(Boxed<Expr>, &'a [Token]), Fault>
    ensures { Gives (λ x. (x.0, x.1.now)) result ((grammar.call (grammar.expression prefixes.now depth)).read tokens.now) }
{
    if sees(tokens, Kind::Bound) {
        return bound_call(alloc, tokens);
    }
    if sees(tokens, Kind::Coalesce) {
        return coalesce_call(alloc, tokens, prefixes, depth);
    }
    if sees(tokens, Kind::If) {
        return if_call(alloc, tokens, prefixes, depth);
    }
    if sees(tokens, Kind::One) {
        return one_call(alloc, tokens, prefixes, depth);
    }
    if sees(tokens, Kind::Two) {
        return two_call(alloc, tokens, prefixes, depth);
    }
    if sees_other_call(tokens) {
        return Err(refuse(SyntaxKind::Unsupported, tokens));
    }
    Err(refuse(SyntaxKind::Unexpected, tokens))
}

#[cycle(expressions)]
fn primary<'a>(
    alloc: Global,
    tokens: &'a [Token],
    prefixes: &Prefixes,
    depth: u32,
) -> Result<(Boxed<Expr>, &'a [Token]), Fault>
    ensures { Gives (λ x. (x.0, x.1.now)) result ((grammar.primary prefixes.now (grammar.expression prefixes.now depth)).read tokens.now) }
{
    if sees(tokens, Kind::LeftParen) {
        return parens(alloc, tokens, prefixes, depth);
    }
    if sees_call(tokens) {
        return call(alloc, tokens, prefixes, depth);
    }
    if sees_iri_name(tokens) {
        return primary_iri(alloc, tokens, prefixes);
    }
    if sees(tokens, Kind::Variable) {
        return variable_expression(alloc, tokens);
    }
    primary_literal(alloc, tokens, prefixes)
}

#[tactic(auto, unfolding(fx_grammar::specs::Grammar::unary))]
#[cycle(expressions)]
fn unary<'a>(
    alloc: Global,
    tokens: &'a [Token],
    prefixes: &Prefixes,
    depth: u32,
) -> Result<(Boxed<Expr>, &'a [Token]), Fault>
    ensures { Gives (λ x. (x.0, x.1.now)) result ((grammar.unary prefixes.now (grammar.expression prefixes.now depth)).read tokens.now) }
{
    if sees(tokens, Kind::Bang) {
        let rest = mark(tokens, Kind::Bang)?;
        let (part, rest) = primary(alloc, rest, prefixes, depth)?;
        let expr = negation(alloc, part)?;
        return Ok((expr, rest));
    }
    if sees(tokens, Kind::Plus) {
        let rest = mark(tokens, Kind::Plus)?;
        let (part, rest) = primary(alloc, rest, prefixes, depth)?;
        let expr = positive(alloc, part)?;
        return Ok((expr, rest));
    }
    if sees(tokens, Kind::Dash) {
        let rest = mark(tokens, Kind::Dash)?;
        let (part, rest) = primary(alloc, rest, prefixes, depth)?;
        let expr = negative(alloc, part)?;
        return Ok((expr, rest));
    }
    primary(alloc, tokens, prefixes, depth)
}

#[tactic(auto, unfolding(fx_grammar::specs::Grammar::factor, fx_grammar::specs::Grammar::no_quotient))]
#[cycle(expressions)]
fn factor<'a>(
    alloc: Global,
    tokens: &'a [Token],
    prefixes: &Prefixes,
    depth: u32,
) -> Result<(Boxed<Expr>, &'a [Token]), Fault>
    ensures { Gives (λ x. (x.0, x.1.now)) result ((grammar.factor prefixes.now (grammar.expression prefixes.now depth)).read tokens.now) }
{
    let (part, rest) = unary(alloc, tokens, prefixes, depth)?;
    lacks(rest, Kind::Slash)?;
    Ok((part, rest))
}

// What follows the first of a product, with those before it in `parts`.
#[cycle(expressions)]
fn product_more<'a>(
    alloc: Global,
    mut parts: Items<Expr>,
    tokens: &'a [Token],
    prefixes: &Prefixes,
    depth: u32,
) -> Result<(Items<Expr>, &'a [Token]), Fault>
    ensures { Gives (λ x. (x.0, x.1.now)) result (rule.with_front parts (rule.more Kind.Star (grammar.factor prefixes.now (grammar.expression prefixes.now depth)) tokens.now)) }
{
    let mut rest = tokens;
    'more: while sees(rest, Kind::Star) {
        let after = mark(rest, Kind::Star)?;
        let (next, after) = factor(alloc, after, prefixes, depth)?;
        add_part(&mut parts, next)?;
        rest = after;
    }
    Ok((parts, rest))
}

#[tactic(auto, unfolding(fx_grammar::specs::Grammar::product))]
#[cycle(expressions)]
fn product<'a>(
    alloc: Global,
    tokens: &'a [Token],
    prefixes: &Prefixes,
    depth: u32,
) -> Result<(Boxed<Expr>, &'a [Token]), Fault>
    ensures { Gives (λ x. (x.0, x.1.now)) result ((grammar.product prefixes.now (grammar.expression prefixes.now depth)).read tokens.now) }
{
    let (first, rest) = factor(alloc, tokens, prefixes, depth)?;
    let parts = one(alloc, first)?;
    let (parts, rest) = product_more(alloc, parts, rest, prefixes, depth)?;
    let product = one_or_product(alloc, parts)?;
    Ok((product, rest))
}

#[tactic(auto, unfolding(fx_grammar::specs::Grammar::signed_product))]
#[cycle(expressions)]
fn signed_product<'a>(
    alloc: Global,
    tokens: &'a [Token],
    prefixes: &Prefixes,
    depth: u32,
) -> Result<(Sign, Boxed<Expr>, &'a [Token]), Fault>
    ensures { Gives (λ x. ((x.0, x.1), x.2.now)) result ((grammar.signed_product prefixes.now (grammar.expression prefixes.now depth)).read tokens.now) }
{
    if sees(tokens, Kind::Plus) {
        let rest = mark(tokens, Kind::Plus)?;
        let (part, rest) = product(alloc, rest, prefixes, depth)?;
        return Ok((Sign::Plus, part, rest));
    }
    let rest = mark(tokens, Kind::Dash)?;
    let (part, rest) = product(alloc, rest, prefixes, depth)?;
    Ok((Sign::Minus, part, rest))
}

#[tactic(auto, unfolding(fx_grammar::specs::Grammar::signed_literal))]
#[cycle(expressions)]
fn signed_literal<'a>(
    alloc: Global,
    tokens: &'a [Token],
    prefixes: &Prefixes,
    depth: u32,
) -> Result<(Sign, Boxed<Expr>, &'a [Token]), Fault>
    ensures { Gives (λ x. ((x.0, x.1), x.2.now)) result ((grammar.signed_literal prefixes.now (grammar.expression prefixes.now depth)).read tokens.now) }
{
    let (term, rest) = signed(alloc, tokens)?;
    let first = constant(alloc, term)?;
    let parts = one(alloc, first)?;
    let (parts, rest) = product_more(alloc, parts, rest, prefixes, depth)?;
    let product = one_or_product(alloc, parts)?;
    Ok((Sign::Plus, product, rest))
}

#[tactic(auto, unfolding(fx_grammar::specs::Grammar::addend, fx_grammar::specs::Grammar::signed_product))]
#[cycle(expressions)]
fn addend<'a>(
    alloc: Global,
    tokens: &'a [Token],
    prefixes: &Prefixes,
    depth: u32,
) -> Result<(Sign, Boxed<Expr>, &'a [Token]), Fault>
    ensures { Gives (λ x. ((x.0, x.1), x.2.now)) result ((grammar.addend prefixes.now (grammar.expression prefixes.now depth)).read tokens.now) }
{
    if sees(tokens, Kind::Plus) || sees(tokens, Kind::Dash) {
        return signed_product(alloc, tokens, prefixes, depth);
    }
    signed_literal(alloc, tokens, prefixes, depth)
}

// Whether the next token goes on a sum.
#[tactic(auto, unfolding(fx_grammar::specs::Grammar::addend, fx_grammar::specs::Grammar::signed_product, fx_grammar::specs::Grammar::signed_literal))]
fn sees_addend(tokens: &[Token]) -> bool
    ensures { (ps : grammar.Prefixes) (n : ℕ) → result ≡ rule.sees (grammar.addend ps (grammar.expression ps n)).begins tokens.now }
{
    sees(tokens, Kind::Plus) || sees(tokens, Kind::Dash) || sees(tokens, Kind::Signed)
}

// What is added to the first of a sum.
#[cycle(expressions)]
fn addends<'a>(
    alloc: Global,
    tokens: &'a [Token],
    prefixes: &Prefixes,
    depth: u32,
) -> Result<(Items<(Sign, Expr)>, &'a [Token]), Fault>
    ensures { Gives (λ x. (x.0, x.1.now)) result (rule.any_number (grammar.addend prefixes.now (grammar.expression prefixes.now depth)) tokens.now) }
{
    let mut parts = Items::new(alloc);
    let mut rest = tokens;
    'more: while sees_addend(rest) {
        let (sign, next, after) = addend(alloc, rest, prefixes, depth)?;
        add_signed(&mut parts, sign, next)?;
        rest = after;
    }
    Ok((parts, rest))
}

#[tactic(auto, unfolding(fx_grammar::specs::Grammar::sum, fx_grammar::specs::Rule::any_number))]
#[cycle(expressions)]
fn sum<'a>(
    alloc: Global,
    tokens: &'a [Token],
    prefixes: &Prefixes,
    depth: u32,
) -> Result<(Boxed<Expr>, &'a [Token]), Fault>
    ensures { Gives (λ x. (x.0, x.1.now)) result ((grammar.sum prefixes.now (grammar.expression prefixes.now depth)).read tokens.now) }
{
    let (first, rest) = product(alloc, tokens, prefixes, depth)?;
    let (parts, rest) = addends(alloc, rest, prefixes, depth)?;
    let sum = summed(alloc, first, parts)?;
    Ok((sum, rest))
}

#[tactic(auto, unfolding(fx_grammar::specs::Grammar::compared))]
#[cycle(expressions)]
fn compared<'a>(
    alloc: Global,
    tokens: &'a [Token],
    prefixes: &Prefixes,
    depth: u32,
) -> Result<(Relative, &'a [Token]), Fault>
    ensures { Gives (λ x. (x.0, x.1.now)) result ((grammar.compared prefixes.now (grammar.expression prefixes.now depth)).read tokens.now) }
{
    let (op, rest) = comparison(tokens)?;
    let (right, rest) = sum(alloc, rest, prefixes, depth)?;
    Ok((Relative::Compared { op, right }, rest))
}

#[tactic(auto, unfolding(fx_grammar::specs::Grammar::among))]
#[cycle(expressions)]
fn among<'a>(
    alloc: Global,
    tokens: &'a [Token],
    prefixes: &Prefixes,
    depth: u32,
) -> Result<(Relative, &'a [Token]), Fault>
    ensures { Gives (λ x. (x.0, x.1.now)) result ((grammar.among prefixes.now (grammar.expression prefixes.now depth)).read tokens.now) }
{
    let negated = sees(tokens, Kind::Not);
    let rest = if negated {
        mark(tokens, Kind::Not)?
    } else {
        tokens
    };
    let rest = mark(rest, Kind::In)?;
    let (list, rest) = list(alloc, rest, prefixes, depth)?;
    Ok((Relative::Among { negated, list }, rest))
}

#[tactic(auto, unfolding(fx_grammar::specs::Grammar::compared, fx_grammar::specs::Grammar::among))]
#[cycle(expressions)]
fn relative<'a>(
    alloc: Global,
    tokens: &'a [Token],
    prefixes: &Prefixes,
    depth: u32,
) -> Result<(Option<Relative>, &'a [Token]), Fault>
    ensures { Gives (λ x. (x.0, x.1.now)) result ((rule.opt (rule.either (grammar.compared prefixes.now (grammar.expression prefixes.now depth)) (grammar.among prefixes.now (grammar.expression prefixes.now depth)))).read tokens.now) }
{
    if sees(tokens, Kind::Comparison) {
        let (found, rest) = compared(alloc, tokens, prefixes, depth)?;
        return Ok((Some(found), rest));
    }
    if sees(tokens, Kind::Not) || sees(tokens, Kind::In) {
        let (found, rest) = among(alloc, tokens, prefixes, depth)?;
        return Ok((Some(found), rest));
    }
    Ok((None, tokens))
}

#[tactic(auto, unfolding(fx_grammar::specs::Grammar::relation))]
#[cycle(expressions)]
fn relation<'a>(
    alloc: Global,
    tokens: &'a [Token],
    prefixes: &Prefixes,
    depth: u32,
) -> Result<(Boxed<Expr>, &'a [Token]), Fault>
    ensures { Gives (λ x. (x.0, x.1.now)) result ((grammar.relation prefixes.now (grammar.expression prefixes.now depth)).read tokens.now) }
{
    let (left, rest) = sum(alloc, tokens, prefixes, depth)?;
    let (found, rest) = relative(alloc, rest, prefixes, depth)?;
    let relation = related(alloc, left, found)?;
    Ok((relation, rest))
}

// What follows the first of a conjunction, with those before it in `parts`.
#[cycle(expressions)]
fn and_more<'a>(
    alloc: Global,
    mut parts: Items<Expr>,
    tokens: &'a [Token],
    prefixes: &Prefixes,
    depth: u32,
) -> Result<(Items<Expr>, &'a [Token]), Fault>
    ensures { Gives (λ x. (x.0, x.1.now)) result (rule.with_front parts (rule.more Kind.AndAnd (grammar.relation prefixes.now (grammar.expression prefixes.now depth)) tokens.now)) }
{
    let mut rest = tokens;
    'more: while sees(rest, Kind::AndAnd) {
        let after = mark(rest, Kind::AndAnd)?;
        let (next, after) = relation(alloc, after, prefixes, depth)?;
        add_part(&mut parts, next)?;
        rest = after;
    }
    Ok((parts, rest))
}

#[tactic(auto, unfolding(fx_grammar::specs::Grammar::conjunction))]
#[cycle(expressions)]
fn conjunction<'a>(
    alloc: Global,
    tokens: &'a [Token],
    prefixes: &Prefixes,
    depth: u32,
) -> Result<(Boxed<Expr>, &'a [Token]), Fault>
    ensures { Gives (λ x. (x.0, x.1.now)) result ((grammar.conjunction prefixes.now (grammar.expression prefixes.now depth)).read tokens.now) }
{
    let (first, rest) = relation(alloc, tokens, prefixes, depth)?;
    let parts = one(alloc, first)?;
    let (parts, rest) = and_more(alloc, parts, rest, prefixes, depth)?;
    let conjunction = one_or_conjunction(alloc, parts)?;
    Ok((conjunction, rest))
}

// What follows the first of a disjunction, with those before it in `parts`.
#[cycle(expressions)]
fn or_more<'a>(
    alloc: Global,
    mut parts: Items<Expr>,
    tokens: &'a [Token],
    prefixes: &Prefixes,
    depth: u32,
) -> Result<(Items<Expr>, &'a [Token]), Fault>
    ensures { Gives (λ x. (x.0, x.1.now)) result (rule.with_front parts (rule.more Kind.OrOr (grammar.conjunction prefixes.now (grammar.expression prefixes.now depth)) tokens.now)) }
{
    let mut rest = tokens;
    'more: while sees(rest, Kind::OrOr) {
        let after = mark(rest, Kind::OrOr)?;
        let (next, after) = conjunction(alloc, after, prefixes, depth)?;
        add_part(&mut parts, next)?;
        rest = after;
    }
    Ok((parts, rest))
}

#[tactic(auto, unfolding(fx_grammar::specs::Grammar::disjunction))]
#[cycle(expressions)]
fn disjunction<'a>(
    alloc: Global,
    tokens: &'a [Token],
    prefixes: &Prefixes,
    depth: u32,
) -> Result<(Boxed<Expr>, &'a [Token]), Fault>
    ensures { Gives (λ x. (x.0, x.1.now)) result ((grammar.disjunction prefixes.now (grammar.expression prefixes.now depth)).read tokens.now) }
{
    let (first, rest) = conjunction(alloc, tokens, prefixes, depth)?;
    let parts = one(alloc, first)?;
    let (parts, rest) = or_more(alloc, parts, rest, prefixes, depth)?;
    let disjunction = one_or_disjunction(alloc, parts)?;
    Ok((disjunction, rest))
}
