//! What stands between the signs of an IRI, of a text and of a name with a prefix, with each escape as the character that it names
//! (SPARQL 1.1 sections 4.1 and 19.7; RDF 1.1 Turtle section 6.4). Each call takes the text of one token, with its signs.
//!
//! Every text has an answer, so that a caller needn't show that it is a token: where an escape names no character, as none of a
//! token does, U+FFFD stands for it.
ghost use Rattle.std.specs.Prelude.{◌≡◌, IfOk, string_bytes, drop};
ghost use Rattle.std.specs.Str.{chars, encode_utf8_all};
ghost use Rattle.fx_terms.specs.Answers.{AnswersTerm};
ghost use Rattle.fx_terms.specs.Iris.{read_iri};
ghost use Rattle.fx_tokens.specs.Answers.{left_number};
ghost use Rattle.fx_tokens.specs.Decoding as spec;

use crate::parts::{four, split_first};
use fx_terms::escapes::letter_escape;
use fx_terms::{Iri, TermError};
use std::alloc::{AllocError, Global};

/// The signs behind which a token ends.
#[derive(Clone, Copy)]
pub enum Closing {
    One(char),
    Three(char),
}

/// The absolute IRI that stands between `<` and `>`.
///
/// `Relative` and `BadCharacter` come exactly where `Iri::read` has them of that text. No token that is an IRI has a character that
/// no IRI has.
pub fn iri(alloc: Global, text: &str) -> Result<Iri, TermError>
    ensures { AnswersTerm result (read_iri (spec.iri_text text.now)) }
{
    let text = iri_text(alloc, text)?;
    Iri::read(alloc, text.as_str())
}

/// What stands between `<` and `>`, which may be relative.
pub fn iri_text(alloc: Global, text: &str) -> Result<String, AllocError>
    ensures { IfOk result (λ s. string_bytes s ≡ spec.iri_text text.now) }
{
    decoded(alloc, behind_first(text), Closing::One('>'))
}

/// What stands between one or three quotes.
pub fn quoted(alloc: Global, text: &str) -> Result<String, AllocError>
    ensures { IfOk result (λ s. string_bytes s ≡ spec.between_quotes text.now) }
{
    let quote = first(text);
    if is_long(text.as_bytes()) {
        let text = behind_first(behind_first(behind_first(text)));
        decoded(alloc, text, Closing::Three(quote))
    } else {
        decoded(alloc, behind_first(text), Closing::One(quote))
    }
}

/// What stands before the colon of a name with a prefix, and what stands behind it, without its backslashes.
pub fn prefix_name(alloc: Global, text: &str) -> Result<(String, String), AllocError>
    ensures { IfOk result (λ p. (string_bytes p.0 ≡ encode_utf8_all (spec.prefix (chars text.now))) × (string_bytes p.1 ≡ encode_utf8_all (spec.local (spec.behind_colon (chars text.now))))) }
{
    let (prefix, rest) = prefix(alloc, text)?;
    let local = local(alloc, rest)?;
    Ok((prefix, local))
}

/// The text behind the first character.
pub fn behind_first(text: &str) -> &str
    ensures bytes { result.now ≡ spec.behind_first text.now }
    ensures chars { chars result.now ≡ drop 1 (chars text.now) }
{
    match split_first(text) {
        Some((_, rest)) => rest,
        None => text,
    }
}

fn first(text: &str) -> char
    ensures { result ≡ spec.first (chars text.now) }
{
    match split_first(text) {
        Some((first, _)) => first,
        None => '"',
    }
}

fn is_long(text: &[u8]) -> bool
    ensures { result ≡ spec.is_long text.now }
{
    match text {
        [first, second, _, ..] => *first == *second,
        _ => false,
    }
}

// The text before its closing signs, with each escape as the character that it names.
fn decoded(alloc: Global, text: &str, closing: Closing) -> Result<String, AllocError>
    ensures { IfOk result (λ s. string_bytes s ≡ spec.decoded closing text.now) }
{
    let mut out = String::new(alloc);
    let mut rest = text;
    let mut left = text.len();
    'each: while left > 0 {
        left -= 1;
        if closes(rest, closing) {
            return Ok(out);
        }
        let Some((first, behind)) = split_first(rest) else {
            return Ok(out);
        };
        let (named, behind) = next(first, behind);
        out.push(named)?;
        rest = behind;
    }
    Ok(out)
}

// A character, or the one that an escape names, and the text behind it.
fn next(first: char, text: &str) -> (char, &str)
    ensures { (result.0, chars result.1.now) ≡ spec.next first (chars text.now) }
{
    if first == '\\' {
        escape(text)
    } else {
        (first, text)
    }
}

// The closing signs stand at the front.
fn closes(text: &str, closing: Closing) -> bool
    ensures { result ≡ spec.closes closing (chars text.now) }
{
    match closing {
        Closing::One(sign) => begins(text, sign),
        Closing::Three(sign) => {
            begins(text, sign)
                && begins(behind_first(text), sign)
                && begins(behind_first(behind_first(text)), sign)
        }
    }
}

fn begins(text: &str, sign: char) -> bool
    ensures { result ≡ spec.begins sign (chars text.now) }
{
    match split_first(text) {
        Some((first, _)) => first == sign,
        None => false,
    }
}

// The character that an escape names, and the text behind it; the text begins behind the backslash.
fn escape(text: &str) -> (char, &str)
    ensures { (result.0, chars result.1.now) ≡ spec.escape (chars text.now) }
{
    let Some((first, rest)) = split_first(text) else {
        return ('\u{FFFD}', text);
    };
    if first == 'u' {
        coded(four(rest, 0), rest)
    } else if first == 'U' {
        coded(eight(rest), rest)
    } else {
        (letter(first), rest)
    }
}

fn eight(text: &str) -> Option<(u32, &str)>
    ensures { left_number result ≡ spec.eight (chars text.now) }
{
    let (high, rest) = four(text, 0)?;
    four(rest, high)
}

fn coded<'a>(code: Option<(u32, &'a str)>, text: &'a str) -> (char, &'a str)
    ensures { (result.0, chars result.1.now) ≡ spec.coded (left_number code.entry) (chars text.entry.now) }
{
    match code {
        Some((number, rest)) => (char_of(number), rest),
        None => ('\u{FFFD}', text),
    }
}

fn char_of(number: u32) -> char
    ensures { result ≡ spec.char_of number }
{
    match char::from_u32(number) {
        Some(c) => c,
        None => '\u{FFFD}',
    }
}

fn letter(c: char) -> char
    ensures { result ≡ spec.letter c }
{
    letter_escape(c).unwrap_or(c)
}

// What stands before the first colon, and the text behind it.
fn prefix(alloc: Global, text: &str) -> Result<(String, &str), AllocError>
    ensures { IfOk result (λ p. (string_bytes p.0 ≡ encode_utf8_all (spec.prefix (chars text.now))) × (chars p.1.now ≡ spec.behind_colon (chars text.now))) }
{
    let mut out = String::new(alloc);
    let mut rest = text;
    'each: while let Some((first, behind)) = split_first(rest) {
        if first == ':' {
            return Ok((out, behind));
        }
        out.push(first)?;
        rest = behind;
    }
    Ok((out, rest))
}

// The text without its backslashes.
fn local(alloc: Global, text: &str) -> Result<String, AllocError>
    ensures { IfOk result (λ s. string_bytes s ≡ encode_utf8_all (spec.local (chars text.now))) }
{
    let mut out = String::new(alloc);
    let mut rest = text;
    'each: while let Some((first, behind)) = split_first(rest) {
        if first != '\\' {
            out.push(first)?;
        }
        rest = behind;
    }
    Ok(out)
}
