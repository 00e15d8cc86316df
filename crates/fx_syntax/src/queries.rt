//! Queries, and the texts that are queries.
ghost use Rattle.std.specs.Prelude.{[]};
ghost use Rattle.fx_grammar.specs.Rule as rule;
ghost use Rattle.fx_grammar.specs.Grammar as grammar;
ghost use Rattle.fx_readers.specs.Gives.{Gives};

use crate::elements::Expressions;
use crate::orders::modifiers;
use fx_algebra::{Group, Query};
use fx_blocks::opt_values;
use fx_grammar::{Kind, Main, SyntaxKind, Token};
use fx_groups::group;
use fx_heads::{prologue, query_head};
use fx_readers::{Fault, Prefixes, mark, refuse, sees};
use fx_terms::Boxed;
use fx_trees::queries::query_of;
use std::alloc::Global;

#[tactic(auto, unfolding(fx_grammar::specs::Grammar::where_group, fx_grammar::specs::Grammar::whole_group))]
fn where_group<'a>(
    alloc: Global,
    tokens: &'a [Token],
    prefixes: &Prefixes,
) -> Result<(Group, &'a [Token]), Fault>
    ensures { Gives (λ x. (x.0, x.1.now)) result ((grammar.where_group prefixes.now).read tokens.now) }
{
    if sees(tokens, Kind::Where) {
        let rest = mark(tokens, Kind::Where)?;
        return group::<Expressions>(alloc, rest, prefixes, 64);
    }
    if sees(tokens, Kind::From) {
        return Err(refuse(SyntaxKind::Unsupported, tokens));
    }
    group::<Expressions>(alloc, tokens, prefixes, 64)
}

#[tactic(auto, unfolding(fx_grammar::specs::Grammar::main))]
fn main_part<'a>(
    alloc: Global,
    tokens: &'a [Token],
    prefixes: &Prefixes,
) -> Result<(Boxed<Main>, &'a [Token]), Fault>
    ensures { Gives (λ x. (x.0, x.1.now)) result ((grammar.main prefixes.now).read tokens.now) }
{
    let (head, rest) = query_head(alloc, tokens)?;
    let (group, rest) = where_group(alloc, rest, prefixes)?;
    let (modifiers, rest) = modifiers(alloc, rest, prefixes)?;
    let main = Boxed::new(
        alloc,
        Main {
            head,
            group,
            modifiers,
        },
    )?;
    Ok((main, rest))
}

#[tactic(auto, unfolding(fx_grammar::specs::Grammar::body))]
fn body<'a>(
    alloc: Global,
    tokens: &'a [Token],
    prefixes: &Prefixes,
) -> Result<(Boxed<Query>, &'a [Token]), Fault>
    ensures { Gives (λ x. (x.0, x.1.now)) result ((grammar.body prefixes.now).read tokens.now) }
{
    let (main, rest) = main_part(alloc, tokens, prefixes)?;
    let (inline, rest) = opt_values(alloc, rest, prefixes)?;
    let query = query_of(alloc, main, inline)?;
    Ok((query, rest))
}

/// A query at the front of some tokens, and the tokens behind it.
#[tactic(auto, unfolding(fx_grammar::specs::Grammar::query, fx_grammar::specs::Grammar::prologue, fx_grammar::specs::Rule::any_number))]
fn query(alloc: Global, tokens: &[Token]) -> Result<(Boxed<Query>, &[Token]), Fault>
    ensures { Gives (λ x. (x.0, x.1.now)) result (grammar.query.read tokens.now) }
{
    let (prefixes, rest) = prologue(alloc, tokens)?;
    let (query, rest) = body(alloc, rest, &prefixes)?;
    Ok((query, rest))
}

/// The query that all the tokens are.
#[tactic(auto, unfolding(fx_rules::specs::Rule::read_whole, fx_rules::specs::Rule::to_end))]
pub fn whole_query(alloc: Global, tokens: &[Token]) -> Result<Boxed<Query>, Fault>
    ensures { Gives (λ q. (q, [])) result (rule.read_whole grammar.query tokens.now) }
{
    let (found, rest) = query(alloc, tokens)?;
    match rest {
        [] => Ok(found),
        [_, ..] => Err(refuse(SyntaxKind::Unexpected, rest)),
    }
}
