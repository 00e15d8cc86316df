//! Triples where they stand in a group.
ghost use Rattle.fx_grammar.specs.Rule as rule;
ghost use Rattle.fx_grammar.specs.Grammar as grammar;
ghost use Rattle.fx_readers.specs.Gives.{Gives};

use crate::subjects::{sees_graph_term, triples};
use fx_algebra::Element;
use fx_grammar::{Kind, SyntaxKind, Token};
use fx_readers::{Fault, Prefixes, mark, refuse, sees};
use fx_terms::Items;
use fx_trees::elements::elements_of;
use std::alloc::Global;

fn opt_triples<'a>(
    alloc: Global,
    tokens: &'a [Token],
    prefixes: &Prefixes,
) -> Result<(Items<Element>, &'a [Token]), Fault>
    ensures { Gives (λ x. (x.0, x.1.now)) result ((rule.made grammar.triple_elements (rule.opt (grammar.triples prefixes.now))).read tokens.now) }
{
    if sees_graph_term(tokens) {
        let (patterns, rest) = triples(alloc, tokens, prefixes)?;
        let elements = elements_of(alloc, patterns.as_slice())?;
        return Ok((elements, rest));
    }
    let none = Items::new(alloc);
    Ok((none, tokens))
}

/// A dot behind another element, and the triples behind it, each where there are.
#[tactic(auto, unfolding(fx_grammar::specs::Grammar::behind_other))]
pub fn behind_other<'a>(
    alloc: Global,
    tokens: &'a [Token],
    prefixes: &Prefixes,
) -> Result<(Items<Element>, &'a [Token]), Fault>
    ensures { Gives (λ x. (x.0, x.1.now)) result ((grammar.behind_other prefixes.now).read tokens.now) }
{
    let rest = if sees(tokens, Kind::Dot) {
        mark(tokens, Kind::Dot)?
    } else {
        tokens
    };
    opt_triples(alloc, rest, prefixes)
}

/// The triples with which a group begins, where it does.
pub fn first_triples<'a>(
    alloc: Global,
    tokens: &'a [Token],
    prefixes: &Prefixes,
) -> Result<(Items<Element>, &'a [Token]), Fault>
    ensures { Gives (λ x. (x.0, x.1.now)) result ((grammar.first_triples prefixes.now).read tokens.now) }
{
    if sees(tokens, Kind::Select) {
        return Err(refuse(SyntaxKind::Unsupported, tokens));
    }
    opt_triples(alloc, tokens, prefixes)
}
