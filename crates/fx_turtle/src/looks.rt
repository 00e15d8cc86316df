//! What kind of symbol stands at a place. An IRI is looked at as one, whether it is absolute or not.
ghost use Rattle.std.specs.Prelude.{◌≡◌, ◌<◌, ◌||◌, IfOk, codes, map};
ghost use Rattle.std.specs.Str.{bytes_eq};
ghost use Rattle.std.specs.Char.{to_ascii_uppercase};
ghost use Rattle.fx_rules.specs.Rule as rules;
ghost use Rattle.fx_turtle.specs.Gives.{Gives, Refuses};
ghost use Rattle.fx_turtle.specs.Grammar as grammar;
ghost use Rattle.fx_turtle.specs.Rule as rule;
ghost use Rattle.fx_turtle.specs.Sources.{left, loose, is_any_name};
ghost use Rattle.fx_turtle.specs.Symbols as symbol;

use crate::faults::Fault;
use crate::kinds::Kind;
use crate::refusals::TurtleKind;
use crate::sources::Source;
use fx_terms::{Memory, TermError};
use fx_tokens::{TokenKind, decoding};
use std::alloc::Global;

/// Whether two kinds are the same.
pub fn is(a: Kind, b: Kind) -> bool
    ensures { result ≡ symbol.is a b }
{
    a == b
}

/// The kind of what a token says.
pub fn kind_of(kind: TokenKind, text: &str) -> Kind
    ensures { result ≡ loose (symbol.kind_of (symbol.symbol_of kind text.now)) }
{
    match kind {
        TokenKind::Iri => Kind::Iri,
        TokenKind::PrefixName => Kind::PrefixName,
        TokenKind::Variable => Kind::Other,
        TokenKind::Blank => Kind::Blank,
        TokenKind::Tag => tag_kind(decoding::behind_first(text)),
        TokenKind::Integer => Kind::Number,
        TokenKind::Signed => Kind::Number,
        TokenKind::Decimal => Kind::Number,
        TokenKind::Text => Kind::Text,
        TokenKind::Word => word_kind(text.as_bytes()),
        TokenKind::Mark => mark_kind(text.as_bytes()),
    }
}

fn tag_kind(name: &str) -> Kind
    ensures { result ≡ symbol.tag_kind name.now }
{
    if is_text(name.as_bytes(), b"prefix") {
        Kind::AtPrefix
    } else if is_text(name.as_bytes(), b"base") {
        Kind::AtBase
    } else {
        Kind::Tag
    }
}

/// The kind of what a word says.
pub fn word_kind(text: &[u8]) -> Kind
    ensures { result ≡ symbol.kind_of (symbol.word_of text.now) }
{
    if is_text(text, b"a") {
        Kind::A
    } else if is_truth(text) {
        Kind::Truth
    } else if is_upper(text, b"PREFIX") {
        Kind::Prefix
    } else if is_upper(text, b"BASE") {
        Kind::Base
    } else {
        Kind::Other
    }
}

/// The text is `true` or `false`.
pub fn is_truth(text: &[u8]) -> bool
    ensures { result ≡ (bytes_eq text.now (codes "true") || bytes_eq text.now (codes "false")) }
{
    is_text(text, b"true") || is_text(text, b"false")
}

fn mark_kind(text: &[u8]) -> Kind
    ensures { result ≡ symbol.mark_of text.now }
{
    if is_text(text, b".") {
        Kind::Dot
    } else if is_text(text, b";") {
        Kind::Semicolon
    } else if is_text(text, b",") {
        Kind::Comma
    } else if is_text(text, b"^^") {
        Kind::CaretCaret
    } else if is_text(text, b"[") {
        Kind::LeftBracket
    } else if is_text(text, b"(") {
        Kind::LeftParen
    } else {
        Kind::Other
    }
}

fn is_text(text: &[u8], other: &[u8]) -> bool
    ensures { result ≡ bytes_eq text.now other.now }
{
    text == other
}

// The text is this word in upper case.
fn is_upper(text: &[u8], word: &[u8]) -> bool
    ensures { result ≡ bytes_eq (map to_ascii_uppercase text.now) word.now }
{
    if text.len() != word.len() {
        return false;
    }
    let mut at = 0;
    'each: while at < text.len() {
        if text[at].to_ascii_uppercase() != word[at] {
            return false;
        }
        at += 1;
    }
    true
}

/// The next symbol is of this kind, which is none of an IRI.
pub fn sees(source: &Source, at: usize, kind: Kind) -> bool
    requires { 1 < symbol.rank kind }
    ensures { result ≡ rules.sees rule.alphabet (symbol.is kind) (left source.now at) }
{
    match source.token(at) {
        Some((token, text, _)) => is(kind, kind_of(token, text)),
        None => false,
    }
}

/// The next symbol is an IRI, which may be relative, or a name with a prefix.
pub fn sees_name(source: &Source, at: usize) -> bool
    ensures { result ≡ rules.sees rule.alphabet is_any_name (left source.now at) }
{
    match source.token(at) {
        Some((token, text, _)) => is_name(kind_of(token, text)),
        None => false,
    }
}

fn is_name(kind: Kind) -> bool
    ensures { result ≡ grammar.is_iri_name kind }
{
    is(Kind::Iri, kind) || is(Kind::PrefixName, kind)
}

/// The next symbol is a tag, or one that is a tag behind a text.
pub fn sees_tag(source: &Source, at: usize) -> bool
    ensures { result ≡ rules.sees rule.alphabet grammar.is_any_tag (left source.now at) }
{
    match source.token(at) {
        Some((token, text, _)) => is_any_tag(kind_of(token, text)),
        None => false,
    }
}

fn is_any_tag(kind: Kind) -> bool
    ensures { result ≡ grammar.is_any_tag kind }
{
    is(Kind::Tag, kind) || is(Kind::AtPrefix, kind) || is(Kind::AtBase, kind)
}

/// The next symbol begins a blank node.
pub fn sees_blank(source: &Source, at: usize) -> bool
    ensures { result ≡ rules.sees rule.alphabet grammar.begins_blank_node (left source.now at) }
{
    match source.token(at) {
        Some((token, text, _)) => begins_blank(kind_of(token, text)),
        None => false,
    }
}

fn begins_blank(kind: Kind) -> bool
    ensures { result ≡ grammar.begins_blank_node kind }
{
    is(Kind::Blank, kind) || is(Kind::LeftBracket, kind)
}

/// The next symbol is one with which a base is declared.
pub fn sees_base(source: &Source, at: usize) -> bool
    ensures { result ≡ rules.sees rule.alphabet grammar.begins_base (left source.now at) }
{
    match source.token(at) {
        Some((token, text, _)) => begins_base(kind_of(token, text)),
        None => false,
    }
}

fn begins_base(kind: Kind) -> bool
    ensures { result ≡ grammar.begins_base kind }
{
    is(Kind::AtBase, kind) || is(Kind::Base, kind)
}

// Why the symbol of a token is refused that may not stand where it stands.
fn why_at(alloc: Global, kind: TokenKind, text: &str, why: TurtleKind) -> Result<TurtleKind, Memory>
    ensures { IfOk result (λ w. w ≡ rule.why_of why (symbol.kind_of (symbol.symbol_of kind text.now))) }
{
    match kind {
        TokenKind::Iri => why_of_iri(alloc, text, why),
        TokenKind::Tag => Ok(why),
        TokenKind::Word => Ok(why),
        TokenKind::Mark => Ok(why),
        _ => Ok(why),
    }
}

fn why_of_iri(alloc: Global, text: &str, why: TurtleKind) -> Result<TurtleKind, Memory>
    ensures { IfOk result (λ w. w ≡ rule.why_of why (symbol.kind_of (symbol.iri_of text.now))) }
{
    match decoding::iri(alloc, text) {
        Ok(_) => Ok(why),
        Err(TermError::Memory) => Err(Memory),
        Err(_) => Ok(TurtleKind::Relative),
    }
}

/// The refusal of the next symbol.
pub fn refuse(alloc: Global, source: &Source, at: usize, why: TurtleKind) -> Fault
    ensures { Refuses result why (left source.now at) }
{
    let left = source.count(at);
    match source.token(at) {
        Some((token, text, _)) => match why_at(alloc, token, text, why) {
            Ok(why) => Fault::Refused { why, left },
            Err(Memory) => Fault::Memory,
        },
        None => Fault::Refused { why, left },
    }
}

/// The place behind a symbol of this kind, which is none of an IRI.
pub fn mark(alloc: Global, source: &Source, at: usize, kind: Kind) -> Result<usize, Fault>
    requires { 1 < symbol.rank kind }
    ensures { Gives (λ next. (tt, left source.now next)) result ((rule.token kind).read (left source.now at)) }
{
    match source.token(at) {
        Some((token, text, next)) => {
            if is(kind, kind_of(token, text)) {
                Ok(next)
            } else {
                Err(refuse(alloc, source, at, TurtleKind::Unexpected))
            }
        }
        None => Err(refuse(alloc, source, at, TurtleKind::Unexpected)),
    }
}
