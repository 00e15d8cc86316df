//! Groups. `depth` says how many more groups may stand within one another.
ghost use Rattle.std.specs.Prelude.{◌≡◌, ℕ, []};
ghost use Rattle.fx_grammar.specs.Rule as rule;
ghost use Rattle.fx_grammar.specs.Grammar as grammar;
ghost use Rattle.fx_readers.specs.Gives.{Gives};

use crate::elements::ReadsElements;
use fx_algebra::{Element, Group};
use fx_blocks::inline_values;
use fx_grammar::{Kind, SyntaxKind, Token};
use fx_readers::{Fault, Prefixes, iri_name, mark, refuse, sees, sees_iri_name};
use fx_terms::{Boxed, Iri, Items, Name};
use fx_trees::elements;
use fx_trees::elements::{note, one_element, one_group};
use fx_trees::names::no_names;
use fx_triples::{behind_other, first_triples};
use indexmap::IndexSet;
use std::alloc::Global;

#[tactic(auto, unfolding(fx_grammar::specs::Grammar::service_name, fx_grammar::specs::Grammar::iri_name))]
fn service_name<'a>(
    alloc: Global,
    tokens: &'a [Token],
    prefixes: &Prefixes,
) -> Result<(Iri, &'a [Token]), Fault>
    ensures { Gives (λ x. (x.0, x.1.now)) result ((grammar.service_name prefixes.now).read tokens.now) }
{
    if sees_iri_name(tokens) {
        return iri_name(alloc, tokens, prefixes);
    }
    if sees(tokens, Kind::Variable) {
        return Err(refuse(SyntaxKind::Unsupported, tokens));
    }
    Err(refuse(SyntaxKind::Unexpected, tokens))
}

/// The next token is one with which an element other than a triple may begin, or one that is refused by name there.
#[tactic(auto, unfolding(fx_grammar::specs::Grammar::item, fx_grammar::specs::Grammar::other, fx_grammar::specs::Grammar::union, fx_grammar::specs::Grammar::service, fx_grammar::specs::Grammar::binding, fx_grammar::specs::Grammar::group, fx_grammar::specs::Grammar::braced))]
fn sees_item(tokens: &[Token]) -> bool
    ensures { (ps : grammar.Prefixes) (n : ℕ) → result ≡ rule.sees (grammar.item ps (grammar.group ps n) []).begins tokens.now }
{
    sees(tokens, Kind::LeftBrace)
        || sees(tokens, Kind::Optional)
        || sees(tokens, Kind::Minus)
        || sees(tokens, Kind::Service)
        || sees(tokens, Kind::Filter)
        || sees(tokens, Kind::Bind)
        || sees(tokens, Kind::Values)
        || sees(tokens, Kind::Graph)
}

/// A group.
#[cycle(groups)]
pub fn group<'a, E: ReadsElements>(
    alloc: Global,
    tokens: &'a [Token],
    prefixes: &Prefixes,
    depth: u32,
) -> Result<(Group, &'a [Token]), Fault>
    ensures { Gives (λ x. (x.0, x.1.now)) result ((grammar.group prefixes.now depth).read tokens.now) }
{
    if depth == 0 {
        return Err(refuse(SyntaxKind::Unexpected, tokens));
    }
    braced::<E>(alloc, tokens, prefixes, depth - 1)
}

#[tactic(auto, unfolding(fx_grammar::specs::Grammar::braced))]
#[cycle(groups)]
fn braced<'a, E: ReadsElements>(
    alloc: Global,
    tokens: &'a [Token],
    prefixes: &Prefixes,
    depth: u32,
) -> Result<(Group, &'a [Token]), Fault>
    ensures { Gives (λ x. (x.0, x.1.now)) result ((grammar.braced prefixes.now (grammar.group prefixes.now depth)).read tokens.now) }
{
    let rest = mark(tokens, Kind::LeftBrace)?;
    let (inner, rest) = inside::<E>(alloc, rest, prefixes, depth)?;
    let rest = mark(rest, Kind::RightBrace)?;
    Ok((inner, rest))
}

#[cycle(groups)]
fn inside<'a, E: ReadsElements>(
    alloc: Global,
    tokens: &'a [Token],
    prefixes: &Prefixes,
    depth: u32,
) -> Result<(Group, &'a [Token]), Fault>
    ensures { Gives (λ x. (x.0, x.1.now)) result ((grammar.inside prefixes.now (grammar.group prefixes.now depth)).read tokens.now) }
{
    let (first, rest) = first_triples(alloc, tokens, prefixes)?;
    let mut names = no_names(alloc);
    note(alloc, &mut names, first.as_slice())?;
    let (elements, rest) = items::<E>(alloc, first, names, rest, prefixes, depth)?;
    Ok((Group { elements }, rest))
}

// The elements behind the first triples, with those before in `elements`.
#[cycle(groups)]
fn items<'a, E: ReadsElements>(
    alloc: Global,
    mut elements: Items<Element>,
    mut names: IndexSet<Name>,
    tokens: &'a [Token],
    prefixes: &Prefixes,
    depth: u32,
) -> Result<(Items<Element>, &'a [Token]), Fault>
    ensures { Gives (λ x. (x.0, x.1.now)) result (rule.with_each (λ es. es) elements (grammar.items_from prefixes.now (grammar.group prefixes.now depth) names.keys tokens.now)) }
{
    let mut rest = tokens;
    'more: while sees_item(rest) {
        let (next, after) = item::<E>(alloc, rest, prefixes, &names, depth)?;
        note(alloc, &mut names, next.as_slice())?;
        elements.append(next)?;
        rest = after;
    }
    Ok((elements, rest))
}

#[tactic(auto, unfolding(fx_grammar::specs::Grammar::item))]
#[cycle(groups)]
fn item<'a, E: ReadsElements>(
    alloc: Global,
    tokens: &'a [Token],
    prefixes: &Prefixes,
    names: &IndexSet<Name>,
    depth: u32,
) -> Result<(Items<Element>, &'a [Token]), Fault>
    ensures { Gives (λ x. (x.0, x.1.now)) result ((grammar.item prefixes.now (grammar.group prefixes.now depth) names.now.keys).read tokens.now) }
{
    let (first, rest) = other::<E>(alloc, tokens, prefixes, names, depth)?;
    let (more, rest) = behind_other(alloc, rest, prefixes)?;
    let mut elements = one_element(alloc, first)?;
    elements.append(more)?;
    Ok((elements, rest))
}

#[tactic(auto, unfolding(fx_grammar::specs::Grammar::other, fx_grammar::specs::Grammar::union, fx_grammar::specs::Grammar::service, fx_grammar::specs::Grammar::binding, fx_grammar::specs::Grammar::group, fx_grammar::specs::Grammar::braced))]
#[cycle(groups)]
fn other<'a, E: ReadsElements>(
    alloc: Global,
    tokens: &'a [Token],
    prefixes: &Prefixes,
    names: &IndexSet<Name>,
    depth: u32,
) -> Result<(Boxed<Element>, &'a [Token]), Fault>
    ensures { Gives (λ x. (x.0, x.1.now)) result ((grammar.other prefixes.now (grammar.group prefixes.now depth) names.now.keys).read tokens.now) }
{
    if sees(tokens, Kind::LeftBrace) {
        return union::<E>(alloc, tokens, prefixes, depth);
    }
    if sees(tokens, Kind::Optional) {
        return optional::<E>(alloc, tokens, prefixes, depth);
    }
    if sees(tokens, Kind::Minus) {
        return minus::<E>(alloc, tokens, prefixes, depth);
    }
    if sees(tokens, Kind::Service) {
        return service::<E>(alloc, tokens, prefixes, depth);
    }
    if sees(tokens, Kind::Filter) {
        return E::filter(alloc, tokens, prefixes);
    }
    if sees(tokens, Kind::Bind) {
        return E::binding(alloc, tokens, prefixes, names);
    }
    if sees(tokens, Kind::Values) {
        return inline_values(alloc, tokens, prefixes);
    }
    if sees(tokens, Kind::Graph) {
        return Err(refuse(SyntaxKind::Unsupported, tokens));
    }
    Err(refuse(SyntaxKind::Unexpected, tokens))
}

#[cycle(groups)]
fn optional<'a, E: ReadsElements>(
    alloc: Global,
    tokens: &'a [Token],
    prefixes: &Prefixes,
    depth: u32,
) -> Result<(Boxed<Element>, &'a [Token]), Fault>
    ensures { Gives (λ x. (x.0, x.1.now)) result ((rule.made Element.Optional (rule.after (rule.token Kind.Optional) (grammar.group prefixes.now depth))).read tokens.now) }
{
    let rest = mark(tokens, Kind::Optional)?;
    let (inner, rest) = group::<E>(alloc, rest, prefixes, depth)?;
    let element = elements::optional(alloc, inner)?;
    Ok((element, rest))
}

#[cycle(groups)]
fn minus<'a, E: ReadsElements>(
    alloc: Global,
    tokens: &'a [Token],
    prefixes: &Prefixes,
    depth: u32,
) -> Result<(Boxed<Element>, &'a [Token]), Fault>
    ensures { Gives (λ x. (x.0, x.1.now)) result ((rule.made Element.Minus (rule.after (rule.token Kind.Minus) (grammar.group prefixes.now depth))).read tokens.now) }
{
    let rest = mark(tokens, Kind::Minus)?;
    let (inner, rest) = group::<E>(alloc, rest, prefixes, depth)?;
    let element = elements::minus(alloc, inner)?;
    Ok((element, rest))
}

#[tactic(auto, unfolding(fx_grammar::specs::Grammar::union))]
#[cycle(groups)]
fn union<'a, E: ReadsElements>(
    alloc: Global,
    tokens: &'a [Token],
    prefixes: &Prefixes,
    depth: u32,
) -> Result<(Boxed<Element>, &'a [Token]), Fault>
    ensures { Gives (λ x. (x.0, x.1.now)) result ((grammar.union prefixes.now (grammar.group prefixes.now depth)).read tokens.now) }
{
    let (first, rest) = group::<E>(alloc, tokens, prefixes, depth)?;
    let parts = one_group(alloc, first)?;
    let (parts, rest) = union_more::<E>(alloc, parts, rest, prefixes, depth)?;
    let element = elements::union(alloc, parts)?;
    Ok((element, rest))
}

// The groups of a union after the first, with those before in `parts`.
#[cycle(groups)]
fn union_more<'a, E: ReadsElements>(
    alloc: Global,
    mut parts: Items<Group>,
    tokens: &'a [Token],
    prefixes: &Prefixes,
    depth: u32,
) -> Result<(Items<Group>, &'a [Token]), Fault>
    ensures { Gives (λ x. (x.0, x.1.now)) result (rule.with_front parts (rule.more Kind.Union (grammar.group prefixes.now depth) tokens.now)) }
{
    let mut rest = tokens;
    'more: while sees(rest, Kind::Union) {
        let after = mark(rest, Kind::Union)?;
        let (next, after) = group::<E>(alloc, after, prefixes, depth)?;
        parts.push(next)?;
        rest = after;
    }
    Ok((parts, rest))
}

#[tactic(auto, unfolding(fx_grammar::specs::Grammar::service))]
#[cycle(groups)]
fn service<'a, E: ReadsElements>(
    alloc: Global,
    tokens: &'a [Token],
    prefixes: &Prefixes,
    depth: u32,
) -> Result<(Boxed<Element>, &'a [Token]), Fault>
    ensures { Gives (λ x. (x.0, x.1.now)) result ((grammar.service prefixes.now (grammar.group prefixes.now depth)).read tokens.now) }
{
    let rest = mark(tokens, Kind::Service)?;
    let silent = sees(rest, Kind::Silent);
    let rest = if silent {
        mark(rest, Kind::Silent)?
    } else {
        rest
    };
    let (iri, rest) = service_name(alloc, rest, prefixes)?;
    let (group, rest) = group::<E>(alloc, rest, prefixes, depth)?;
    let element = elements::service(alloc, silent, iri, group)?;
    Ok((element, rest))
}
