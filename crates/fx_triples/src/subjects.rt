//! Triples, with what is written once for several of them.
ghost use Rattle.std.specs.Prelude.{◌≡◌, IfOk, None, true};
ghost use Rattle.fx_grammar.specs.Rule as rule;
ghost use Rattle.fx_grammar.specs.Grammar as grammar;
ghost use Rattle.fx_readers.specs.Gives.{Gives};

use fx_grammar::{Kind, SyntaxKind, Token};
use fx_readers::{
    Fault, Prefixes, iri_name, literal, mark, refuse, sees, sees_iri_name, sees_literal, variable,
};
use fx_terms::{Boxed, Iri, Items, Memory, Pattern, PatternTerm};
use fx_trees::patterns::{
    Property, add_property, add_term, add_triples, iri_part, literal_part, one_part, one_property,
    triples_of, variable_part,
};
use std::alloc::Global;

fn sees_blank(tokens: &[Token]) -> bool
    ensures { result ≡ rule.sees grammar.begins_blank_node tokens.now }
{
    sees(tokens, Kind::Blank) || sees(tokens, Kind::LeftBracket)
}

fn sees_path_begin(tokens: &[Token]) -> bool
    ensures { result ≡ rule.sees grammar.begins_path tokens.now }
{
    sees(tokens, Kind::Caret) || sees(tokens, Kind::Bang) || sees(tokens, Kind::LeftParen)
}

fn sees_path_more(tokens: &[Token]) -> bool
    ensures { result ≡ rule.sees grammar.goes_on_path tokens.now }
{
    sees(tokens, Kind::Slash)
        || sees(tokens, Kind::Star)
        || sees(tokens, Kind::Plus)
        || sees(tokens, Kind::Question)
        || sees(tokens, Kind::Bar)
}

/// The next token is one with which a subject or an object may begin, or one that is refused by name there.
#[tactic(auto, unfolding(fx_grammar::specs::Grammar::graph_term, fx_grammar::specs::Grammar::part_literal, fx_grammar::specs::Grammar::literal, fx_grammar::specs::Grammar::variable, fx_grammar::specs::Grammar::iri_name))]
pub fn sees_graph_term(tokens: &[Token]) -> bool
    ensures { (ps : grammar.Prefixes) → result ≡ rule.sees (grammar.graph_term ps).begins tokens.now }
{
    sees(tokens, Kind::Variable)
        || sees_iri_name(tokens)
        || sees_blank(tokens)
        || sees(tokens, Kind::LeftParen)
        || sees_literal(tokens)
}

/// A subject or an object.
#[tactic(auto, unfolding(fx_grammar::specs::Grammar::graph_term, fx_grammar::specs::Grammar::part_literal, fx_grammar::specs::Grammar::variable, fx_grammar::specs::Grammar::iri_name))]
fn graph_term<'a>(
    alloc: Global,
    tokens: &'a [Token],
    prefixes: &Prefixes,
) -> Result<(Boxed<PatternTerm>, &'a [Token]), Fault>
    ensures { Gives (λ x. (x.0, x.1.now)) result ((grammar.graph_term prefixes.now).read tokens.now) }
{
    if sees(tokens, Kind::Variable) {
        let (name, rest) = variable(tokens)?;
        let part = variable_part(alloc, name)?;
        return Ok((part, rest));
    }
    if sees_iri_name(tokens) {
        let (iri, rest) = iri_name(alloc, tokens, prefixes)?;
        let part = iri_part(alloc, iri)?;
        return Ok((part, rest));
    }
    if sees_blank(tokens) {
        return Err(refuse(SyntaxKind::BlankNode, tokens));
    }
    if sees(tokens, Kind::LeftParen) {
        return Err(refuse(SyntaxKind::Unsupported, tokens));
    }
    let (term, rest) = literal(alloc, tokens, prefixes, false)?;
    let part = literal_part(alloc, term)?;
    Ok((part, rest))
}

fn rdf_type(alloc: Global) -> Result<Iri, Memory>
    ensures { IfOk result (λ iri. iri ≡ grammar.rdf_type) }
{
    Iri::known(alloc, "http://www.w3.org/1999/02/22-rdf-syntax-ns#type")
}

/// A path is refused.
#[tactic(auto, unfolding(fx_grammar::specs::Grammar::no_path))]
fn no_path(tokens: &[Token]) -> Result<(), Fault>
    ensures { Gives (λ x. (None, tokens.now)) result (grammar.no_path.read tokens.now) }
{
    if sees_path_more(tokens) {
        Err(refuse(SyntaxKind::Unsupported, tokens))
    } else {
        Ok(())
    }
}

#[tactic(auto, unfolding(fx_grammar::specs::Grammar::verb_iri))]
fn verb_iri<'a>(
    alloc: Global,
    tokens: &'a [Token],
    prefixes: &Prefixes,
) -> Result<(Iri, &'a [Token]), Fault>
    ensures { Gives (λ x. (x.0, x.1.now)) result ((grammar.verb_iri prefixes.now).read tokens.now) }
{
    if sees(tokens, Kind::A) {
        let rest = mark(tokens, Kind::A)?;
        let iri = rdf_type(alloc)?;
        no_path(rest)?;
        return Ok((iri, rest));
    }
    let (iri, rest) = iri_name(alloc, tokens, prefixes)?;
    no_path(rest)?;
    Ok((iri, rest))
}

#[tactic(auto, unfolding(fx_grammar::specs::Grammar::verb, fx_grammar::specs::Grammar::verb_iri, fx_grammar::specs::Grammar::variable, fx_grammar::specs::Grammar::iri_name))]
fn verb<'a>(
    alloc: Global,
    tokens: &'a [Token],
    prefixes: &Prefixes,
) -> Result<(Boxed<PatternTerm>, &'a [Token]), Fault>
    ensures { Gives (λ x. (x.0, x.1.now)) result ((grammar.verb prefixes.now).read tokens.now) }
{
    if sees(tokens, Kind::Variable) {
        let (name, rest) = variable(tokens)?;
        let part = variable_part(alloc, name)?;
        return Ok((part, rest));
    }
    if sees(tokens, Kind::A) || sees_iri_name(tokens) {
        let (iri, rest) = verb_iri(alloc, tokens, prefixes)?;
        let part = iri_part(alloc, iri)?;
        return Ok((part, rest));
    }
    if sees_path_begin(tokens) {
        return Err(refuse(SyntaxKind::Unsupported, tokens));
    }
    Err(refuse(SyntaxKind::Unexpected, tokens))
}

/// The next token is one with which a verb may begin, or one that is refused by name there.
#[tactic(auto, unfolding(fx_grammar::specs::Grammar::property, fx_grammar::specs::Grammar::verb, fx_grammar::specs::Grammar::verb_iri, fx_grammar::specs::Grammar::variable, fx_grammar::specs::Grammar::iri_name))]
fn sees_property(tokens: &[Token]) -> bool
    ensures { (ps : grammar.Prefixes) → result ≡ rule.sees (grammar.property ps).begins tokens.now }
{
    sees(tokens, Kind::Variable)
        || sees(tokens, Kind::A)
        || sees_iri_name(tokens)
        || sees_path_begin(tokens)
}

// What follows the first object, with those before it in `parts`.
fn objects_more<'a>(
    alloc: Global,
    mut parts: Items<PatternTerm>,
    tokens: &'a [Token],
    prefixes: &Prefixes,
) -> Result<(Items<PatternTerm>, &'a [Token]), Fault>
    ensures { Gives (λ x. (x.0, x.1.now)) result (rule.with_front parts (rule.more Kind.Comma (grammar.graph_term prefixes.now) tokens.now)) }
{
    let mut rest = tokens;
    'more: while sees(rest, Kind::Comma) {
        let after = mark(rest, Kind::Comma)?;
        let (next, after) = graph_term(alloc, after, prefixes)?;
        add_term(&mut parts, next)?;
        rest = after;
    }
    Ok((parts, rest))
}

#[tactic(auto, unfolding(fx_grammar::specs::Grammar::objects))]
fn objects<'a>(
    alloc: Global,
    tokens: &'a [Token],
    prefixes: &Prefixes,
) -> Result<(Items<PatternTerm>, &'a [Token]), Fault>
    ensures { Gives (λ x. (x.0, x.1.now)) result ((grammar.objects prefixes.now).read tokens.now) }
{
    let (first, rest) = graph_term(alloc, tokens, prefixes)?;
    let parts = one_part(alloc, first)?;
    objects_more(alloc, parts, rest, prefixes)
}

#[tactic(auto, unfolding(fx_grammar::specs::Grammar::property))]
fn property<'a>(
    alloc: Global,
    tokens: &'a [Token],
    prefixes: &Prefixes,
) -> Result<(Property, &'a [Token]), Fault>
    ensures { Gives (λ x. (x.0, x.1.now)) result ((grammar.property prefixes.now).read tokens.now) }
{
    let (verb, rest) = verb(alloc, tokens, prefixes)?;
    let (objects, rest) = objects(alloc, rest, prefixes)?;
    Ok(((verb, objects), rest))
}

fn opt_property<'a>(
    alloc: Global,
    tokens: &'a [Token],
    prefixes: &Prefixes,
) -> Result<(Option<Property>, &'a [Token]), Fault>
    ensures { Gives (λ x. (x.0, x.1.now)) result ((rule.opt (grammar.property prefixes.now)).read tokens.now) }
{
    if sees_property(tokens) {
        let (found, rest) = property(alloc, tokens, prefixes)?;
        return Ok((Some(found), rest));
    }
    Ok((None, tokens))
}

// What follows the first verb and its objects, with those before it in `parts`.
fn properties_more<'a>(
    alloc: Global,
    mut parts: Items<Property>,
    tokens: &'a [Token],
    prefixes: &Prefixes,
) -> Result<(Items<Property>, &'a [Token]), Fault>
    ensures { Gives (λ x. (x.0, x.1.now)) result (rule.with_each grammar.option_list parts (rule.more Kind.Semicolon (rule.opt (grammar.property prefixes.now)) tokens.now)) }
{
    let mut rest = tokens;
    'more: while sees(rest, Kind::Semicolon) {
        let after = mark(rest, Kind::Semicolon)?;
        let (next, after) = opt_property(alloc, after, prefixes)?;
        add_property(&mut parts, next)?;
        rest = after;
    }
    Ok((parts, rest))
}

#[tactic(auto, unfolding(fx_grammar::specs::Grammar::properties, fx_grammar::specs::Grammar::more_properties))]
fn properties<'a>(
    alloc: Global,
    tokens: &'a [Token],
    prefixes: &Prefixes,
) -> Result<(Items<Property>, &'a [Token]), Fault>
    ensures { Gives (λ x. (x.0, x.1.now)) result ((grammar.properties prefixes.now).read tokens.now) }
{
    let (first, rest) = property(alloc, tokens, prefixes)?;
    let parts = one_property(alloc, first)?;
    properties_more(alloc, parts, rest, prefixes)
}

#[tactic(auto, unfolding(fx_grammar::specs::Grammar::same_subject))]
fn same_subject<'a>(
    alloc: Global,
    tokens: &'a [Token],
    prefixes: &Prefixes,
) -> Result<(Items<Pattern>, &'a [Token]), Fault>
    ensures { Gives (λ x. (x.0, x.1.now)) result ((grammar.same_subject prefixes.now).read tokens.now) }
{
    let (subject, rest) = graph_term(alloc, tokens, prefixes)?;
    let (properties, rest) = properties(alloc, rest, prefixes)?;
    let patterns = triples_of(alloc, subject.get(), properties.as_slice())?;
    Ok((patterns, rest))
}

// A dot, where triples stand before it and no other dot.
fn dot(tokens: &[Token], behind: bool) -> Result<&[Token], Fault>
    ensures { Gives (λ x. (tt, x.now)) result ((grammar.dot behind).read tokens.now) }
{
    if behind {
        mark(tokens, Kind::Dot)
    } else {
        Err(refuse(SyntaxKind::Unexpected, tokens))
    }
}

fn opt_same_subject<'a>(
    alloc: Global,
    tokens: &'a [Token],
    prefixes: &Prefixes,
) -> Result<(Option<Items<Pattern>>, &'a [Token]), Fault>
    ensures { Gives (λ x. (x.0, x.1.now)) result ((rule.opt (grammar.same_subject prefixes.now)).read tokens.now) }
{
    if sees_graph_term(tokens) {
        let (patterns, rest) = same_subject(alloc, tokens, prefixes)?;
        return Ok((Some(patterns), rest));
    }
    Ok((None, tokens))
}

#[tactic(auto, unfolding(fx_grammar::specs::Grammar::dot_triples))]
fn dot_triples<'a>(
    alloc: Global,
    tokens: &'a [Token],
    prefixes: &Prefixes,
    behind: bool,
) -> Result<(Option<Items<Pattern>>, &'a [Token]), Fault>
    ensures { Gives (λ x. (x.0, x.1.now)) result ((grammar.dot_triples prefixes.now behind).read tokens.now) }
{
    let rest = dot(tokens, behind)?;
    opt_same_subject(alloc, rest, prefixes)
}

// What follows the first triples, with those before it in `patterns`.
fn triples_more<'a>(
    alloc: Global,
    mut patterns: Items<Pattern>,
    tokens: &'a [Token],
    prefixes: &Prefixes,
) -> Result<(Items<Pattern>, &'a [Token]), Fault>
    ensures { Gives (λ x. (x.0, x.1.now)) result (rule.with_each grammar.option_items patterns (grammar.more_triples_from prefixes.now true tokens.now)) }
{
    let mut rest = tokens;
    let mut behind = true;
    'more: while sees(rest, Kind::Dot) {
        let (next, after) = dot_triples(alloc, rest, prefixes, behind)?;
        behind = next.is_some();
        add_triples(&mut patterns, next)?;
        rest = after;
    }
    Ok((patterns, rest))
}

/// Triples, with dots between them and perhaps behind the last.
#[tactic(auto, unfolding(fx_grammar::specs::Grammar::triples))]
pub fn triples<'a>(
    alloc: Global,
    tokens: &'a [Token],
    prefixes: &Prefixes,
) -> Result<(Items<Pattern>, &'a [Token]), Fault>
    ensures { Gives (λ x. (x.0, x.1.now)) result ((grammar.triples prefixes.now).read tokens.now) }
{
    let (first, rest) = same_subject(alloc, tokens, prefixes)?;
    triples_more(alloc, first, rest, prefixes)
}
