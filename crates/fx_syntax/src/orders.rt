//! What stands behind a query's group.
ghost use Rattle.std.specs.Prelude.{◌≡◌};
ghost use Rattle.fx_grammar.specs.Rule as rule;
ghost use Rattle.fx_grammar.specs.Grammar as grammar;
ghost use Rattle.fx_readers.specs.Gives.{Gives};

use fx_algebra::{Expr, Order};
use fx_expressions::{constraint, sees_constraint, variable_expression, whole_parens};
use fx_grammar::{Kind, Modifiers, SyntaxKind, Token};
use fx_heads::opt_limits;
use fx_readers::{Fault, Prefixes, mark, refuse, sees};
use fx_terms::{Boxed, Items};
use fx_trees::queries::{add_order, limits_or, one_order};
use std::alloc::Global;

// Whether the order is from the last, and by what.
#[tactic(auto, unfolding(fx_grammar::specs::Grammar::condition, fx_grammar::specs::Grammar::variable))]
fn condition<'a>(
    alloc: Global,
    tokens: &'a [Token],
    prefixes: &Prefixes,
) -> Result<(bool, Boxed<Expr>, &'a [Token]), Fault>
    ensures { Gives (λ x. (grammar.ordered x.0 x.1, x.2.now)) result ((grammar.condition prefixes.now).read tokens.now) }
{
    if sees(tokens, Kind::Asc) {
        let rest = mark(tokens, Kind::Asc)?;
        let (expr, rest) = whole_parens(alloc, rest, prefixes)?;
        return Ok((false, expr, rest));
    }
    if sees(tokens, Kind::Desc) {
        let rest = mark(tokens, Kind::Desc)?;
        let (expr, rest) = whole_parens(alloc, rest, prefixes)?;
        return Ok((true, expr, rest));
    }
    if sees(tokens, Kind::Variable) {
        let (expr, rest) = variable_expression(alloc, tokens)?;
        return Ok((false, expr, rest));
    }
    let (expr, rest) = constraint(alloc, tokens, prefixes)?;
    Ok((false, expr, rest))
}

fn sees_condition(tokens: &[Token]) -> bool
    ensures { (ps : grammar.Prefixes) → result ≡ rule.sees (grammar.condition ps).begins tokens.now }
{
    if sees(tokens, Kind::Asc) {
        return true;
    }
    if sees(tokens, Kind::Desc) {
        return true;
    }
    if sees(tokens, Kind::Variable) {
        return true;
    }
    sees_constraint(tokens)
}

// The conditions after the first, with those before in `parts`.
fn conditions_more<'a>(
    alloc: Global,
    mut parts: Items<Order>,
    tokens: &'a [Token],
    prefixes: &Prefixes,
) -> Result<(Items<Order>, &'a [Token]), Fault>
    ensures { Gives (λ x. (x.0, x.1.now)) result (rule.with_front parts (rule.any_number (grammar.condition prefixes.now) tokens.now)) }
{
    let mut rest = tokens;
    'more: while sees_condition(rest) {
        let (descending, next, after) = condition(alloc, rest, prefixes)?;
        add_order(&mut parts, descending, next)?;
        rest = after;
    }
    Ok((parts, rest))
}

fn conditions<'a>(
    alloc: Global,
    tokens: &'a [Token],
    prefixes: &Prefixes,
) -> Result<(Items<Order>, &'a [Token]), Fault>
    ensures { Gives (λ x. (x.0, x.1.now)) result ((rule.some (grammar.condition prefixes.now)).read tokens.now) }
{
    let (descending, first, rest) = condition(alloc, tokens, prefixes)?;
    let parts = one_order(alloc, descending, first)?;
    conditions_more(alloc, parts, rest, prefixes)
}

#[tactic(auto, unfolding(fx_grammar::specs::Grammar::order))]
fn order<'a>(
    alloc: Global,
    tokens: &'a [Token],
    prefixes: &Prefixes,
) -> Result<(Items<Order>, &'a [Token]), Fault>
    ensures { Gives (λ x. (x.0, x.1.now)) result ((grammar.order prefixes.now).read tokens.now) }
{
    if sees(tokens, Kind::Order) {
        let rest = mark(tokens, Kind::Order)?;
        let rest = mark(rest, Kind::By)?;
        return conditions(alloc, rest, prefixes);
    }
    if sees(tokens, Kind::Grouping) {
        return Err(refuse(SyntaxKind::Unsupported, tokens));
    }
    Ok((Items::new(alloc), tokens))
}

/// ORDER BY, LIMIT and OFFSET.
#[tactic(auto, unfolding(fx_grammar::specs::Grammar::modifiers))]
pub fn modifiers<'a>(
    alloc: Global,
    tokens: &'a [Token],
    prefixes: &Prefixes,
) -> Result<(Modifiers, &'a [Token]), Fault>
    ensures { Gives (λ x. (x.0, x.1.now)) result ((grammar.modifiers prefixes.now).read tokens.now) }
{
    let (order, rest) = order(alloc, tokens, prefixes)?;
    let (limits, rest) = opt_limits(rest)?;
    let limits = limits_or(limits);
    Ok((Modifiers { order, limits }, rest))
}
