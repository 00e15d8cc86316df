//! Expressions where one begins, and constraints.
ghost use Rattle.std.specs.Prelude.{◌≡◌, true};
ghost use Rattle.fx_grammar.specs.Rule as rule;
ghost use Rattle.fx_grammar.specs.Grammar as grammar;
ghost use Rattle.fx_readers.specs.Gives.{Gives};

use crate::expressions::{call, expression, parens, sees_call};
use fx_algebra::Expr;
use fx_grammar::{Kind, SyntaxKind, Token};
use fx_readers::{Fault, Prefixes, refuse, sees, sees_iri_name};
use fx_terms::Boxed;
use std::alloc::Global;

/// An expression that stands in no other.
#[tactic(auto, unfolding(fx_grammar::specs::Grammar::whole_expression))]
pub fn whole_expression<'a>(
    alloc: Global,
    tokens: &'a [Token],
    prefixes: &Prefixes,
) -> Result<(Boxed<Expr>, &'a [Token]), Fault>
    ensures { Gives (λ x. (x.0, x.1.now)) result ((grammar.whole_expression prefixes.now).read tokens.now) }
{
    expression(alloc, tokens, prefixes, 64)
}

/// An expression between brackets.
#[tactic(auto, unfolding(fx_grammar::specs::Grammar::whole_expression))]
pub fn whole_parens<'a>(
    alloc: Global,
    tokens: &'a [Token],
    prefixes: &Prefixes,
) -> Result<(Boxed<Expr>, &'a [Token]), Fault>
    ensures { Gives (λ x. (x.0, x.1.now)) result ((grammar.parens (grammar.whole_expression prefixes.now)).read tokens.now) }
{
    parens(alloc, tokens, prefixes, 64)
}

#[tactic(auto, unfolding(fx_grammar::specs::Grammar::whole_expression))]
fn whole_call<'a>(
    alloc: Global,
    tokens: &'a [Token],
    prefixes: &Prefixes,
) -> Result<(Boxed<Expr>, &'a [Token]), Fault>
    ensures { Gives (λ x. (x.0, x.1.now)) result ((grammar.call (grammar.whole_expression prefixes.now)).read tokens.now) }
{
    call(alloc, tokens, prefixes, 64)
}

#[tactic(auto, unfolding(fx_grammar::specs::Grammar::whole_expression))]
fn sees_whole_call(tokens: &[Token]) -> bool
    ensures { (ps : grammar.Prefixes) → result ≡ rule.sees (grammar.call (grammar.whole_expression ps)).begins tokens.now }
{
    sees_call(tokens)
}

/// An expression between brackets, or a call.
pub fn constraint<'a>(
    alloc: Global,
    tokens: &'a [Token],
    prefixes: &Prefixes,
) -> Result<(Boxed<Expr>, &'a [Token]), Fault>
    ensures { Gives (λ x. (x.0, x.1.now)) result ((grammar.constraint prefixes.now).read tokens.now) }
{
    if sees(tokens, Kind::LeftParen) {
        return whole_parens(alloc, tokens, prefixes);
    }
    if sees_whole_call(tokens) {
        return whole_call(alloc, tokens, prefixes);
    }
    if sees_iri_name(tokens) {
        return Err(refuse(SyntaxKind::Unsupported, tokens));
    }
    Err(refuse(SyntaxKind::Unexpected, tokens))
}

/// The next token is one with which a constraint begins, or one that is refused by name in its place.
pub fn sees_constraint(tokens: &[Token]) -> bool
    ensures { (ps : grammar.Prefixes) → result ≡ rule.sees (grammar.constraint ps).begins tokens.now }
{
    if sees(tokens, Kind::LeftParen) {
        return true;
    }
    if sees_whole_call(tokens) {
        return true;
    }
    sees_iri_name(tokens)
}
