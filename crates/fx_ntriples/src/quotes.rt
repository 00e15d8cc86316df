//! What stands between the signs of an IRI or of a string.
ghost use Rattle.std.specs.String.{string_bytes};
ghost use Rattle.std.specs.Prelude.{◌≡◌, MatchResult, ◌++◌, ◌+◌, ◌*◌, ◌<◌, ◌≤◌, length, take, drop, true, Some, None, if◌then◌else◌};
ghost use Rattle.std.specs.List.{list_all, prefix_len};
ghost use Rattle.std.specs.Str.{IsCharBoundary};
ghost use Rattle.std.specs.Char.{is_ascii_hexdigit};
ghost use Rattle.fx_ntriples.specs.Quotes as spec;
ghost use Rattle.fx_ntriples.specs.Answers.{ReadsText, ReadsEscape, text_of};

use crate::faults::{Fault, Stop};
use fx_terms::escapes::{digit_value, letter_escape};
use fx_terms::iris::is_forbidden;
use std::alloc::Global;

/// Between which signs a text stands.
#[derive(Clone, Copy)]
pub enum Quote {
    /// `<` and `>`.
    Iri,
    /// Two quotes.
    Text,
}

/// A text as it stands in a line, or as its escapes spell it.
#[derive(Drop)]
pub enum Spelled<'a> {
    Slice(&'a str),
    Decoded(String),
}

impl Spelled<'_> {
    pub fn text(&self) -> &str
        ensures { result.now ≡ text_of self.now }
    {
        match self {
            Spelled::Slice(text) => text,
            Spelled::Decoded(text) => text.as_str(),
        }
    }
}

/// The text that begins at a place, behind the opening sign, and the place behind its closing sign.
pub fn quoted<'a>(
    alloc: Global,
    line: &'a str,
    at: usize,
    quote: Quote,
) -> Result<(Spelled<'a>, usize), Stop>
    requires { IsCharBoundary line.now at }
    ensures { ReadsText line.now result (spec.body quote 0 (drop at line.now)) }
{
    let bytes = line.as_bytes();
    let mut decoded = String::new(alloc);
    let mut from = at;
    loop {
        let end = plain_end(bytes, from, quote);
        if end == bytes.len() {
            return Err(Stop::At(Fault::Bad, end));
        }
        if bytes[end] == closing(quote) {
            let text = joined(decoded, &line[from..end])?;
            return Ok((text, end + 1));
        }
        if bytes[end] != b'\\' {
            return Err(Stop::At(Fault::Bad, end));
        }
        let (c, next) = escape(bytes, end, quote)?;
        decoded.push_str(&line[from..end])?;
        decoded.push(c)?;
        from = next;
    }
}

// The text that was decoded, with what follows it.
fn joined<'a>(decoded: String, rest: &'a str) -> Result<Spelled<'a>, Stop>
    ensures { MatchResult result (λ v. text_of v ≡ string_bytes decoded ++ rest.entry.now) (λ e. e ≡ Stop.Memory) }
{
    if decoded.is_empty() {
        return Ok(Spelled::Slice(rest));
    }
    let mut decoded = decoded;
    decoded.push_str(rest)?;
    Ok(Spelled::Decoded(decoded))
}

fn closing(quote: Quote) -> u8
    ensures { result ≡ spec.closing quote }
{
    match quote {
        Quote::Iri => b'>',
        Quote::Text => b'"',
    }
}

fn is_plain(quote: Quote, b: u8) -> bool
    ensures { result ≡ spec.is_plain quote b }
{
    match quote {
        Quote::Iri => !is_forbidden(b as u32),
        Quote::Text => !matches!(b, b'"' | b'\\' | b'\n' | b'\r'),
    }
}

// Where the bytes from a place on end that stand for themselves.
fn plain_end(line: &[u8], from: usize, quote: Quote) -> usize
    requires { from ≤ length line.now }
    ensures place { result ≡ from + prefix_len (spec.is_plain quote) (drop from line.now) }
    ensures within { result ≤ length line.now }
{
    let mut end = from;
    while end < line.len() && is_plain(quote, line[end]) {
        end += 1;
    }
    end
}

fn short(quote: Quote, b: u8) -> Option<char>
    ensures { result ≡ spec.short quote b }
{
    match quote {
        Quote::Iri => None,
        Quote::Text => letter_escape(b as char),
    }
}

// The character that the escape at a backslash names, and where the escape ends.
#[tactic(auto, unfolding(crate::specs::Quotes::escape_at))]
fn escape(line: &[u8], at: usize, quote: Quote) -> Result<(char, usize), Stop>
    requires { at < length line.now }
    ensures { ReadsEscape line.now at result (spec.escape_at quote (drop (at + 1) line.now)) }
{
    if at + 1 == line.len() {
        return Err(Stop::At(Fault::Bad, at + 1));
    }
    let b = line[at + 1];
    if b == b'u' {
        return numbered(line, at, quote, 4);
    }
    if b == b'U' {
        return numbered(line, at, quote, 8);
    }
    match short(quote, b) {
        Some(c) => Ok((c, at + 2)),
        None => Err(Stop::At(Fault::Bad, at + 1)),
    }
}

// The same of an escape that has so many digits.
fn numbered(line: &[u8], at: usize, quote: Quote, count: usize) -> Result<(char, usize), Stop>
    requires place { at + 1 < length line.now }
    requires some { 0 < count }
    requires few { count ≤ 8 }
    ensures { ReadsEscape line.now at result (spec.numbered quote count (drop (at + 2) line.now)) }
{
    let start = at + 2;
    let end = hex_end(line, start, count);
    if end != start + count {
        return Err(Stop::At(Fault::Bad, end));
    }
    match named(quote, hex_value(&line[start..end])) {
        Some(c) => Ok((c, end)),
        None => Err(Stop::At(Fault::Bad, at)),
    }
}

// Where so many hexadecimal digits end, or the first of these characters that is none.
fn hex_end(line: &[u8], start: usize, count: usize) -> usize
    requires within { start ≤ length line.now }
    requires few { count ≤ 8 }
    ensures place { result ≡ start + prefix_len is_ascii_hexdigit (take count (drop start line.now)) }
    ensures inside { result ≤ length line.now }
{
    let mut end = start;
    while end < line.len() && end - start < count && line[end].is_ascii_hexdigit() {
        end += 1;
    }
    end
}

// The number that hexadecimal digits write.
fn hex_value(digits: &[u8]) -> u32
    requires few { length digits.now ≤ 8 }
    requires hex { list_all is_ascii_hexdigit digits.now ≡ true }
    ensures { result ≡ spec.hex_value 0 digits.now }
{
    let mut value = 0;
    for d in digits {
        value = value * 16 + digit_value(*d as char);
    }
    value
}

// The character of a code, where an escape may name it.
fn named(quote: Quote, code: u32) -> Option<char>
    ensures { result ≡ (if spec.may_name quote code then Some code else None) }
{
    let c = char::from_u32(code)?;
    match quote {
        Quote::Iri => { if is_forbidden(code) { None } else { Some(c) } }
        Quote::Text => Some(c),
    }
}
