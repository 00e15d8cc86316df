//! The calls of `fx_tokens`.

use fx_notation::{escapes, fields, shown};
use fx_terms::TermError;
use fx_tokens::{Token, TokenError, TokenFault, TokenKind, decoding, tokens};
use std::alloc::Global;
use std::fmt::Write;

/// What a call gives.
pub fn answer(alloc: Global, call: &str, inputs: &[&str]) -> Option<String> {
    match inputs {
        [text] => of_text(alloc, call, text),
        [piece, times] => of_repeated(alloc, call, piece, times),
        _ => None,
    }
}

fn of_text(alloc: Global, call: &str, text: &str) -> Option<String> {
    match call {
        "tokens" => read(alloc, text),
        "decoding::iri" => decoded_iri(alloc, text),
        "decoding::iri_text" => iri_text(alloc, text),
        "decoding::quoted" => quoted(alloc, text),
        "decoding::prefix_name" => prefix_name(alloc, text),
        "decoding::behind_first" => shown::word(alloc, decoding::behind_first(text)),
        _ => None,
    }
}

fn of_repeated(alloc: Global, call: &str, piece: &str, times: &str) -> Option<String> {
    match call {
        "tokens of repeated" => count(alloc, piece, times),
        _ => None,
    }
}

// The tokens as kind, start and end, or the fault with its place.
fn read(alloc: Global, field: &str) -> Option<String> {
    let text = escapes::text(alloc, field)?;
    match tokens(alloc, text.as_str()) {
        Ok(tokens) => listed(alloc, tokens.as_slice()),
        Err(TokenError::Bad { place, fault }) => {
            let fault = fault_name(fault);
            format!(in alloc; "Bad {place} {fault}").ok()
        }
        Err(TokenError::Memory) => None,
    }
}

fn listed(alloc: Global, tokens: &[Token]) -> Option<String> {
    let mut text = String::new(alloc);
    for token in tokens {
        push_token(&mut text, *token)?;
    }
    Some(text)
}

fn push_token(text: &mut String, token: Token) -> Option<()> {
    if !text.is_empty() {
        text.push(' ').ok()?;
    }
    let (kind, start, end) = (kind_name(token.kind), token.start, token.end);
    write!(text, "{kind} {start} {end}").ok()
}

fn kind_name(kind: TokenKind) -> &'static str {
    match kind {
        TokenKind::Iri => "Iri",
        TokenKind::PrefixName => "PrefixName",
        TokenKind::Variable => "Variable",
        TokenKind::Blank => "Blank",
        TokenKind::Tag => "Tag",
        TokenKind::Integer => "Integer",
        TokenKind::Signed => "Signed",
        TokenKind::Decimal => "Decimal",
        TokenKind::Text => "Text",
        TokenKind::Word => "Word",
        TokenKind::Mark => "Mark",
    }
}

fn fault_name(fault: TokenFault) -> &'static str {
    match fault {
        TokenFault::Character => "Character",
        TokenFault::Escape => "Escape",
        TokenFault::Unclosed => "Unclosed",
    }
}

// How many tokens a text has that is a piece so many times.
fn count(alloc: Global, piece: &str, times: &str) -> Option<String> {
    let piece = escapes::text(alloc, piece)?;
    let text = fields::repeated(alloc, piece.as_str(), times)?;
    count_text(alloc, text.as_str())
}

fn count_text(alloc: Global, text: &str) -> Option<String> {
    let count = tokens(alloc, text).ok()?.len();
    format!(in alloc; "{count} tokens").ok()
}

fn decoded_iri(alloc: Global, field: &str) -> Option<String> {
    let text = escapes::text(alloc, field)?;
    match decoding::iri(alloc, text.as_str()) {
        Ok(iri) => shown::word(alloc, iri.text()),
        Err(TermError::BadCharacter { place }) => {
            format!(in alloc; "BadCharacter at {place}").ok()
        }
        Err(TermError::Relative) => shown::word(alloc, "Relative"),
        Err(TermError::Memory) => None,
    }
}

fn iri_text(alloc: Global, field: &str) -> Option<String> {
    let text = escapes::text(alloc, field)?;
    decoding::iri_text(alloc, text.as_str()).ok()
}

fn quoted(alloc: Global, field: &str) -> Option<String> {
    let text = escapes::text(alloc, field)?;
    decoding::quoted(alloc, text.as_str()).ok()
}

fn prefix_name(alloc: Global, field: &str) -> Option<String> {
    let text = escapes::text(alloc, field)?;
    let (prefix, local) = decoding::prefix_name(alloc, text.as_str()).ok()?;
    format!(in alloc; "{prefix}, then {local}").ok()
}
