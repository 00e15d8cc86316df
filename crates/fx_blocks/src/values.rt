//! Blocks of VALUES.
ghost use Rattle.std.specs.Prelude.{◌≡◌, IfOk, None, Some, false, map, [], ◌∷◌};
ghost use Rattle.fx_algebra.specs.Scopes.{is_among};
ghost use Rattle.fx_grammar.specs.Rule as rule;
ghost use Rattle.fx_grammar.specs.Grammar as grammar;
ghost use Rattle.fx_readers.specs.Gives.{Gives};

use fx_algebra::Inline;
use fx_grammar::{Kind, SyntaxKind, Token};
use fx_readers::{
    Fault, Prefixes, iri_name, literal, mark, refuse, sees, sees_iri_name, sees_literal, variable,
};
use fx_terms::{Iri, Items, Memory, Name, Term};
use fx_trees::names::{add_name, has_name, in_order, no_names};
use indexmap::IndexSet;
use std::alloc::{AllocError, Global};

/// The next token is one with which a value may begin.
#[tactic(auto, unfolding(fx_grammar::specs::Grammar::value, fx_grammar::specs::Grammar::literal, fx_grammar::specs::Grammar::iri_name))]
fn sees_value(tokens: &[Token]) -> bool
    ensures { (ps : grammar.Prefixes) → result ≡ rule.sees (grammar.value ps).begins tokens.now }
{
    sees_iri_name(tokens) || sees(tokens, Kind::Undef) || sees_literal(tokens)
}

#[tactic(auto, unfolding(fx_grammar::specs::Grammar::value, fx_grammar::specs::Grammar::iri_name))]
fn value<'a>(
    alloc: Global,
    tokens: &'a [Token],
    prefixes: &Prefixes,
) -> Result<(Option<Term>, &'a [Token]), Fault>
    ensures { Gives (λ x. (x.0, x.1.now)) result ((grammar.value prefixes.now).read tokens.now) }
{
    if sees_iri_name(tokens) {
        let (iri, rest) = iri_name(alloc, tokens, prefixes)?;
        return Ok((Some(Term::Iri(iri)), rest));
    }
    if sees(tokens, Kind::Undef) {
        let rest = mark(tokens, Kind::Undef)?;
        return Ok((None, rest));
    }
    let (term, rest) = literal(alloc, tokens, prefixes, false)?;
    Ok((Some(term.into_inner()), rest))
}

fn values<'a>(
    alloc: Global,
    tokens: &'a [Token],
    prefixes: &Prefixes,
) -> Result<(Items<Option<Term>>, &'a [Token]), Fault>
    ensures { Gives (λ x. (x.0, x.1.now)) result (rule.any_number (grammar.value prefixes.now) tokens.now) }
{
    let mut parts = Items::new(alloc);
    let mut rest = tokens;
    'more: while sees_value(rest) {
        let (next, after) = value(alloc, rest, prefixes)?;
        parts.push(next)?;
        rest = after;
    }
    Ok((parts, rest))
}

fn copy_value(value: &Option<Term>) -> Result<Option<Term>, Memory>
    ensures { IfOk result (λ v. v ≡ value.now) }
{
    match value {
        Some(term) => Ok(Some(term.copy()?)),
        None => Ok(None),
    }
}

fn single(alloc: Global, value: Option<Term>) -> Result<Items<Option<Term>>, AllocError>
    ensures { IfOk result (λ row. row ≡ value ∷ []) }
{
    let mut row = Items::new(alloc);
    row.push(value)?;
    Ok(row)
}

// A row for each value.
fn single_rows(alloc: Global, values: &[Option<Term>]) -> Result<Items<Items<Option<Term>>>, Memory>
    ensures { IfOk result (λ rows. rows ≡ map (λ v. v ∷ []) values.now) }
{
    let mut rows = Items::new(alloc);
    for value in values {
        rows.push(single(alloc, copy_value(value)?)?)?;
    }
    Ok(rows)
}

#[tactic(auto, unfolding(fx_grammar::specs::Grammar::single_block, fx_grammar::specs::Rule::any_number))]
fn single_block<'a>(
    alloc: Global,
    tokens: &'a [Token],
    prefixes: &Prefixes,
) -> Result<(Inline, &'a [Token]), Fault>
    ensures { Gives (λ x. (x.0, x.1.now)) result ((grammar.single_block prefixes.now).read tokens.now) }
{
    let (name, rest) = variable(tokens)?;
    let rest = mark(rest, Kind::LeftBrace)?;
    let (values, rest) = values(alloc, rest, prefixes)?;
    let rest = mark(rest, Kind::RightBrace)?;
    let mut columns = Items::new(alloc);
    columns.push(name)?;
    let rows = single_rows(alloc, values.as_slice())?;
    Ok((Inline { columns, rows }, rest))
}

#[tactic(auto, unfolding(fx_grammar::specs::Grammar::new_column))]
fn new_column<'a>(tokens: &'a [Token], names: &IndexSet<Name>) -> Result<(Name, &'a [Token]), Fault>
    ensures reads { Gives (λ x. (x.0, x.1.now)) result ((grammar.new_column names.now.keys).read tokens.now) }
    ensures new { IfOk result (λ x. is_among names.now.keys x.0 ≡ false) }
{
    match tokens {
        [Token::Variable(name), rest @ ..] => {
            if has_name(names, name) {
                Err(refuse(SyntaxKind::RepeatedName, tokens))
            } else {
                Ok((name.copy()?, rest))
            }
        }
        _ => Err(refuse(SyntaxKind::Unexpected, tokens)),
    }
}

fn columns(alloc: Global, tokens: &[Token]) -> Result<(Items<Name>, &[Token]), Fault>
    ensures { Gives (λ x. (x.0, x.1.now)) result ((grammar.columns []).read tokens.now) }
{
    let mut names = no_names(alloc);
    let mut rest = tokens;
    'more: while sees(rest, Kind::Variable) {
        let (name, after) = new_column(rest, &names)?;
        add_name(&mut names, name)?;
        rest = after;
    }
    Ok((in_order(alloc, names)?, rest))
}

#[tactic(auto, unfolding(fx_grammar::specs::Grammar::row_end))]
fn row_end<'a>(
    tokens: &'a [Token],
    width: usize,
    row: &[Option<Term>],
) -> Result<&'a [Token], Fault>
    ensures { Gives (λ x. (tt, x.now)) result ((grammar.row_end width row.now).read tokens.now) }
{
    if !sees(tokens, Kind::RightParen) {
        return Err(refuse(SyntaxKind::Unexpected, tokens));
    }
    if row.len() != width {
        return Err(refuse(SyntaxKind::ValuesWidth, tokens));
    }
    mark(tokens, Kind::RightParen)
}

#[tactic(auto, unfolding(fx_grammar::specs::Grammar::row, fx_grammar::specs::Rule::any_number))]
fn row<'a>(
    alloc: Global,
    tokens: &'a [Token],
    prefixes: &Prefixes,
    width: usize,
) -> Result<(Items<Option<Term>>, &'a [Token]), Fault>
    ensures { Gives (λ x. (x.0, x.1.now)) result ((grammar.row prefixes.now width).read tokens.now) }
{
    let rest = mark(tokens, Kind::LeftParen)?;
    let (row, rest) = values(alloc, rest, prefixes)?;
    let rest = row_end(rest, width, row.as_slice())?;
    Ok((row, rest))
}

fn any_rows<'a>(
    alloc: Global,
    tokens: &'a [Token],
    prefixes: &Prefixes,
    width: usize,
) -> Result<(Items<Items<Option<Term>>>, &'a [Token]), Fault>
    ensures { Gives (λ x. (x.0, x.1.now)) result (rule.any_number (grammar.row prefixes.now width) tokens.now) }
{
    let mut parts = Items::new(alloc);
    let mut rest = tokens;
    'more: while sees(rest, Kind::LeftParen) {
        let (next, after) = row(alloc, rest, prefixes, width)?;
        parts.push(next)?;
        rest = after;
    }
    Ok((parts, rest))
}

// The columns between brackets.
fn column_list(alloc: Global, tokens: &[Token]) -> Result<(Items<Name>, &[Token]), Fault>
    ensures { Gives (λ x. (x.0, x.1.now)) result ((grammar.parens (grammar.columns [])).read tokens.now) }
{
    let rest = mark(tokens, Kind::LeftParen)?;
    let (columns, rest) = columns(alloc, rest)?;
    let rest = mark(rest, Kind::RightParen)?;
    Ok((columns, rest))
}

#[tactic(auto, unfolding(fx_grammar::specs::Grammar::rows, fx_grammar::specs::Rule::any_number))]
fn rows<'a>(
    alloc: Global,
    tokens: &'a [Token],
    prefixes: &Prefixes,
    width: usize,
) -> Result<(Items<Items<Option<Term>>>, &'a [Token]), Fault>
    ensures { Gives (λ x. (x.0, x.1.now)) result ((grammar.rows prefixes.now width).read tokens.now) }
{
    let rest = mark(tokens, Kind::LeftBrace)?;
    let (rows, rest) = any_rows(alloc, rest, prefixes, width)?;
    let rest = mark(rest, Kind::RightBrace)?;
    Ok((rows, rest))
}

#[tactic(auto, unfolding(fx_grammar::specs::Grammar::wide_block))]
fn wide_block<'a>(
    alloc: Global,
    tokens: &'a [Token],
    prefixes: &Prefixes,
) -> Result<(Inline, &'a [Token]), Fault>
    ensures { Gives (λ x. (x.0, x.1.now)) result ((grammar.wide_block prefixes.now).read tokens.now) }
{
    let (columns, rest) = column_list(alloc, tokens)?;
    let (rows, rest) = rows(alloc, rest, prefixes, columns.len())?;
    Ok((Inline { columns, rows }, rest))
}

/// A block of VALUES, behind its keyword.
#[tactic(auto, unfolding(fx_grammar::specs::Grammar::block, fx_grammar::specs::Grammar::single_block, fx_grammar::specs::Grammar::variable))]
pub fn block<'a>(
    alloc: Global,
    tokens: &'a [Token],
    prefixes: &Prefixes,
) -> Result<(Inline, &'a [Token]), Fault>
    ensures { Gives (λ x. (x.0, x.1.now)) result ((grammar.block prefixes.now).read tokens.now) }
{
    if sees(tokens, Kind::Variable) {
        return single_block(alloc, tokens, prefixes);
    }
    wide_block(alloc, tokens, prefixes)
}
