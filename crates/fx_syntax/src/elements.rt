//! Elements of groups that hold expressions.
ghost use Rattle.fx_grammar.specs.Rule as rule;
ghost use Rattle.fx_grammar.specs.Grammar as grammar;
ghost use Rattle.fx_readers.specs.Gives.{Gives};

use fx_algebra::Element;
use fx_expressions::{constraint, whole_expression};
use fx_grammar::{Kind, SyntaxKind, Token};
use fx_groups::ReadsElements;
use fx_readers::{Fault, Prefixes, mark, refuse};
use fx_terms::{Boxed, Name};
use fx_trees::elements::{bound, filtered};
use fx_trees::names::has_name;
use indexmap::IndexSet;
use std::alloc::Global;

/// The readers of `fx_expressions`.
pub struct Expressions;

impl ReadsElements for Expressions {
    fn filter<'a>(
        alloc: Global,
        tokens: &'a [Token],
        prefixes: &Prefixes,
    ) -> Result<(Boxed<Element>, &'a [Token]), Fault> {
        filter(alloc, tokens, prefixes)
    }

    fn binding<'a>(
        alloc: Global,
        tokens: &'a [Token],
        prefixes: &Prefixes,
        names: &IndexSet<Name>,
    ) -> Result<(Boxed<Element>, &'a [Token]), Fault> {
        binding(alloc, tokens, prefixes, names)
    }
}

fn filter<'a>(
    alloc: Global,
    tokens: &'a [Token],
    prefixes: &Prefixes,
) -> Result<(Boxed<Element>, &'a [Token]), Fault>
    ensures { Gives (λ x. (x.0, x.1.now)) result ((rule.made Element.Filter (rule.after (rule.token Kind.Filter) (grammar.constraint prefixes.now))).read tokens.now) }
{
    let rest = mark(tokens, Kind::Filter)?;
    let (condition, rest) = constraint(alloc, rest, prefixes)?;
    let element = filtered(alloc, condition)?;
    Ok((element, rest))
}

#[tactic(auto, unfolding(fx_grammar::specs::Grammar::unbound))]
fn unbound<'a>(tokens: &'a [Token], names: &IndexSet<Name>) -> Result<(Name, &'a [Token]), Fault>
    ensures { Gives (λ x. (x.0, x.1.now)) result ((grammar.unbound names.now.keys).read tokens.now) }
{
    match tokens {
        [Token::Variable(name), rest @ ..] => {
            if has_name(names, name) {
                Err(refuse(SyntaxKind::BindInScope, tokens))
            } else {
                Ok((name.copy()?, rest))
            }
        }
        _ => Err(refuse(SyntaxKind::Unexpected, tokens)),
    }
}

#[tactic(auto, unfolding(fx_grammar::specs::Grammar::binding))]
fn binding<'a>(
    alloc: Global,
    tokens: &'a [Token],
    prefixes: &Prefixes,
    names: &IndexSet<Name>,
) -> Result<(Boxed<Element>, &'a [Token]), Fault>
    ensures { Gives (λ x. (x.0, x.1.now)) result ((grammar.binding prefixes.now names.now.keys).read tokens.now) }
{
    let rest = mark(tokens, Kind::Bind)?;
    let rest = mark(rest, Kind::LeftParen)?;
    let (expr, rest) = whole_expression(alloc, rest, prefixes)?;
    let rest = mark(rest, Kind::As)?;
    let (name, rest) = unbound(rest, names)?;
    let rest = mark(rest, Kind::RightParen)?;
    let element = bound(alloc, expr, name)?;
    Ok((element, rest))
}
