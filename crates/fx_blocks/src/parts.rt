//! Blocks of VALUES where they stand in a group or behind a query.
ghost use Rattle.fx_grammar.specs.Rule as rule;
ghost use Rattle.fx_grammar.specs.Grammar as grammar;
ghost use Rattle.fx_readers.specs.Gives.{Gives};

use crate::values::block;
use fx_algebra::{Element, Inline};
use fx_grammar::{Kind, Token};
use fx_readers::{Fault, Prefixes, mark, sees};
use fx_terms::Boxed;
use fx_trees::elements;
use std::alloc::Global;

/// A VALUES.
pub fn inline_values<'a>(
    alloc: Global,
    tokens: &'a [Token],
    prefixes: &Prefixes,
) -> Result<(Boxed<Element>, &'a [Token]), Fault>
    ensures { Gives (λ x. (x.0, x.1.now)) result ((rule.made Element.Values (rule.after (rule.token Kind.Values) (grammar.block prefixes.now))).read tokens.now) }
{
    let rest = mark(tokens, Kind::Values)?;
    let (inline, rest) = block(alloc, rest, prefixes)?;
    let element = elements::inline_values(alloc, inline)?;
    Ok((element, rest))
}

/// The VALUES behind a query, where there is one.
#[tactic(auto, unfolding(fx_grammar::specs::Grammar::block))]
pub fn opt_values<'a>(
    alloc: Global,
    tokens: &'a [Token],
    prefixes: &Prefixes,
) -> Result<(Option<Inline>, &'a [Token]), Fault>
    ensures { Gives (λ x. (x.0, x.1.now)) result ((rule.opt (rule.after (rule.token Kind.Values) (grammar.block prefixes.now))).read tokens.now) }
{
    if sees(tokens, Kind::Values) {
        let rest = mark(tokens, Kind::Values)?;
        let (inline, rest) = block(alloc, rest, prefixes)?;
        return Ok((Some(inline), rest));
    }
    Ok((None, tokens))
}
