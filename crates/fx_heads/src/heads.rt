//! What stands before a query's group, and LIMIT and OFFSET.
ghost use Rattle.std.specs.Prelude.{◌≡◌, IfOk, [], ◌∷◌};
ghost use Rattle.fx_grammar.specs.Kinds as kinds;
ghost use Rattle.fx_grammar.specs.Rule as rule;
ghost use Rattle.fx_grammar.specs.Grammar as grammar;
ghost use Rattle.fx_readers.specs.Gives.{Gives};

use fx_grammar::{Head, Kind, Limits, SyntaxKind, Text, Token};
use fx_readers::{Fault, Prefixes, mark, refuse, sees, variable};
use fx_terms::{Iri, Items, Name};
use std::alloc::{AllocError, Global};

/// The number that digits write, where it has 64 bits.
fn number_of(digits: &Text) -> Option<u64>
    ensures { result ≡ grammar.number_in digits.now }
{
    let mut number: u64 = 0;
    for digit in digits.as_str().as_bytes() {
        number = number
            .checked_mul(10)?
            .checked_add(digit.saturating_sub(b'0') as u64)?;
    }
    Some(number)
}

#[tactic(auto, unfolding(fx_grammar::specs::Grammar::number))]
fn number(tokens: &[Token]) -> Result<(u64, &[Token]), Fault>
    ensures { Gives (λ x. (x.0, x.1.now)) result (grammar.number.read tokens.now) }
{
    match tokens {
        [Token::Integer(digits), rest @ ..] => match number_of(digits) {
            Some(number) => Ok((number, rest)),
            None => Err(refuse(SyntaxKind::NumberTooWide, tokens)),
        },
        _ => Err(refuse(SyntaxKind::Unexpected, tokens)),
    }
}

#[tactic(auto, unfolding(fx_grammar::specs::Grammar::limit))]
fn limit(tokens: &[Token]) -> Result<(u64, &[Token]), Fault>
    ensures { Gives (λ x. (x.0, x.1.now)) result (grammar.limit.read tokens.now) }
{
    number(mark(tokens, Kind::Limit)?)
}

#[tactic(auto, unfolding(fx_grammar::specs::Grammar::offset))]
fn offset(tokens: &[Token]) -> Result<(u64, &[Token]), Fault>
    ensures { Gives (λ x. (x.0, x.1.now)) result (grammar.offset.read tokens.now) }
{
    number(mark(tokens, Kind::Offset)?)
}

#[tactic(auto, unfolding(fx_grammar::specs::Grammar::limit))]
fn opt_limit(tokens: &[Token]) -> Result<(Option<u64>, &[Token]), Fault>
    ensures { Gives (λ x. (x.0, x.1.now)) result ((rule.opt grammar.limit).read tokens.now) }
{
    if sees(tokens, Kind::Limit) {
        let (number, rest) = limit(tokens)?;
        return Ok((Some(number), rest));
    }
    Ok((None, tokens))
}

#[tactic(auto, unfolding(fx_grammar::specs::Grammar::offset))]
fn opt_offset(tokens: &[Token]) -> Result<(Option<u64>, &[Token]), Fault>
    ensures { Gives (λ x. (x.0, x.1.now)) result ((rule.opt grammar.offset).read tokens.now) }
{
    if sees(tokens, Kind::Offset) {
        let (number, rest) = offset(tokens)?;
        return Ok((Some(number), rest));
    }
    Ok((None, tokens))
}

/// LIMIT and OFFSET, in either order.
#[tactic(auto, unfolding(fx_grammar::specs::Grammar::limits, fx_grammar::specs::Grammar::limit, fx_grammar::specs::Grammar::offset))]
pub fn opt_limits(tokens: &[Token]) -> Result<(Option<Limits>, &[Token]), Fault>
    ensures { Gives (λ x. (x.0, x.1.now)) result ((rule.opt grammar.limits).read tokens.now) }
{
    if sees(tokens, Kind::Limit) {
        let (number, rest) = limit(tokens)?;
        let (offset, rest) = opt_offset(rest)?;
        let limits = Limits {
            limit: Some(number),
            offset,
        };
        return Ok((Some(limits), rest));
    }
    if sees(tokens, Kind::Offset) {
        let (number, rest) = offset(tokens)?;
        let (limit, rest) = opt_limit(rest)?;
        let limits = Limits {
            limit,
            offset: Some(number),
        };
        return Ok((Some(limits), rest));
    }
    Ok((None, tokens))
}

#[tactic(auto, unfolding(fx_grammar::specs::Grammar::column, fx_grammar::specs::Grammar::variable))]
fn column(tokens: &[Token]) -> Result<(Name, &[Token]), Fault>
    ensures { Gives (λ x. (x.0, x.1.now)) result (grammar.column.read tokens.now) }
{
    if sees(tokens, Kind::Variable) {
        return variable(tokens);
    }
    if sees(tokens, Kind::LeftParen) {
        return Err(refuse(SyntaxKind::Unsupported, tokens));
    }
    Err(refuse(SyntaxKind::Unexpected, tokens))
}

#[tactic(auto, unfolding(fx_grammar::specs::Grammar::column, fx_grammar::specs::Grammar::variable))]
fn sees_column(tokens: &[Token]) -> bool
    ensures { result ≡ rule.sees grammar.column.begins tokens.now }
{
    sees(tokens, Kind::Variable) || sees(tokens, Kind::LeftParen)
}

// The columns after the first, with those before in `parts`.
fn columns_more(mut parts: Items<Name>, tokens: &[Token]) -> Result<(Items<Name>, &[Token]), Fault>
    ensures { Gives (λ x. (x.0, x.1.now)) result (rule.with_front parts (rule.any_number grammar.column tokens.now)) }
{
    let mut rest = tokens;
    'more: while sees_column(rest) {
        let (next, after) = column(rest)?;
        parts.push(next)?;
        rest = after;
    }
    Ok((parts, rest))
}

fn one_name(alloc: Global, part: Name) -> Result<Items<Name>, AllocError>
    ensures { IfOk result (λ parts. parts ≡ part ∷ []) }
{
    let mut parts = Items::new(alloc);
    parts.push(part)?;
    Ok(parts)
}

fn columns(alloc: Global, tokens: &[Token]) -> Result<(Items<Name>, &[Token]), Fault>
    ensures { Gives (λ x. (x.0, x.1.now)) result ((rule.some grammar.column).read tokens.now) }
{
    let (first, rest) = column(tokens)?;
    let parts = one_name(alloc, first)?;
    columns_more(parts, rest)
}

#[tactic(auto, unfolding(fx_grammar::specs::Grammar::selected))]
fn selected(alloc: Global, tokens: &[Token]) -> Result<(Option<Items<Name>>, &[Token]), Fault>
    ensures { Gives (λ x. (x.0, x.1.now)) result (grammar.selected.read tokens.now) }
{
    if sees(tokens, Kind::Star) {
        let rest = mark(tokens, Kind::Star)?;
        return Ok((None, rest));
    }
    let (names, rest) = columns(alloc, tokens)?;
    Ok((Some(names), rest))
}

#[tactic(auto, unfolding(fx_grammar::specs::Grammar::distinct))]
fn distinct(tokens: &[Token]) -> Result<(Option<bool>, &[Token]), Fault>
    ensures { Gives (λ x. (x.0, x.1.now)) result (grammar.distinct.read tokens.now) }
{
    if sees(tokens, Kind::Distinct) {
        let rest = mark(tokens, Kind::Distinct)?;
        return Ok((Some(true), rest));
    }
    if sees(tokens, Kind::Reduced) {
        let rest = mark(tokens, Kind::Reduced)?;
        return Ok((Some(false), rest));
    }
    Ok((None, tokens))
}

#[tactic(auto, unfolding(fx_grammar::specs::Grammar::select_head))]
fn select_head(alloc: Global, tokens: &[Token]) -> Result<(Head, &[Token]), Fault>
    ensures { Gives (λ x. (x.0, x.1.now)) result (grammar.select_head.read tokens.now) }
{
    let rest = mark(tokens, Kind::Select)?;
    let (found, rest) = distinct(rest)?;
    let (columns, rest) = selected(alloc, rest)?;
    let distinct = found.unwrap_or(false);
    Ok((Head::Select { distinct, columns }, rest))
}

/// The form of a query, with its columns.
#[tactic(auto, unfolding(fx_grammar::specs::Grammar::query_head, fx_grammar::specs::Grammar::select_head))]
pub fn query_head(alloc: Global, tokens: &[Token]) -> Result<(Head, &[Token]), Fault>
    ensures { Gives (λ x. (x.0, x.1.now)) result (grammar.query_head.read tokens.now) }
{
    if sees(tokens, Kind::Select) {
        return select_head(alloc, tokens);
    }
    if sees(tokens, Kind::Ask) {
        let rest = mark(tokens, Kind::Ask)?;
        return Ok((Head::Ask, rest));
    }
    if sees(tokens, Kind::OtherForm) {
        return Err(refuse(SyntaxKind::Unsupported, tokens));
    }
    Err(refuse(SyntaxKind::Unexpected, tokens))
}

fn namespace(tokens: &[Token]) -> Result<(Text, &[Token]), Fault>
    ensures { Gives (λ x. (x.0, x.1.now)) result ((rule.one (kinds.is Kind.PrefixName) grammar.namespace_of).read tokens.now) }
{
    match tokens {
        [Token::PrefixName { prefix, local }, rest @ ..] => {
            if local.as_str().is_empty() {
                Ok((prefix.copy()?, rest))
            } else {
                Err(refuse(SyntaxKind::Unexpected, tokens))
            }
        }
        _ => Err(refuse(SyntaxKind::Unexpected, tokens)),
    }
}

fn whole_iri(tokens: &[Token]) -> Result<(Iri, &[Token]), Fault>
    ensures { Gives (λ x. (x.0, x.1.now)) result ((rule.one (kinds.is Kind.Iri) grammar.iri_of).read tokens.now) }
{
    match tokens {
        [Token::Iri(iri), rest @ ..] => Ok((iri.copy()?, rest)),
        _ => Err(refuse(SyntaxKind::Unexpected, tokens)),
    }
}

#[tactic(auto, unfolding(fx_grammar::specs::Grammar::prefix))]
fn prefix(tokens: &[Token]) -> Result<(Text, Iri, &[Token]), Fault>
    ensures { Gives (λ x. ((x.0, x.1), x.2.now)) result (grammar.prefix.read tokens.now) }
{
    let rest = mark(tokens, Kind::Prefix)?;
    let (name, rest) = namespace(rest)?;
    let (iri, rest) = whole_iri(rest)?;
    Ok((name, iri, rest))
}

#[tactic(auto, unfolding(fx_grammar::specs::Grammar::prefix))]
fn sees_prefix(tokens: &[Token]) -> bool
    ensures { result ≡ rule.sees grammar.prefix.begins tokens.now }
{
    sees(tokens, Kind::Prefix)
}

/// The prefixes that are declared.
pub fn prologue(alloc: Global, tokens: &[Token]) -> Result<(Prefixes, &[Token]), Fault>
    ensures { Gives (λ x. (x.0, x.1.now)) result (rule.any_number grammar.prefix tokens.now) }
{
    let mut parts = Items::new(alloc);
    let mut rest = tokens;
    'more: while sees_prefix(rest) {
        let (name, iri, after) = prefix(rest)?;
        parts.push((name, iri))?;
        rest = after;
    }
    Ok((Prefixes::of(alloc, parts)?, rest))
}
