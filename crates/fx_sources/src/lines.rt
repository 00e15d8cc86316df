//! What the lines of a registry say.
ghost use Rattle.std.specs.Prelude.{◌≡◌, IfOk};
ghost use Rattle.std.specs.Str as utf8;
ghost use Rattle.url.specs.Parser.{parse_url};
ghost use Rattle.fx_sources.specs.Lines as spec;

use crate::addresses::{endpoint_at, is_name, is_plain};
use crate::entries::Entry;
use crate::words::first_word;
use fx_outside::Flags;
use fx_terms::{Iri, Memory, TermError};
use std::alloc::Global;
use std::str;
use url::{ParseError, Url};

// What a line says.
#[derive(Drop)]
pub enum Line {
    // Nothing: it is empty, or a comment.
    Passed,
    // An entry.
    Entry(Entry),
    // It has another form.
    Malformed,
}

// What a line says.
#[tactic(auto, unfolding(crate::specs::Lines::line_of))]
pub fn read_line(alloc: Global, line: &[u8]) -> Result<Line, Memory>
    ensures { IfOk result (λ says. says ≡ spec.line_of line.now) }
{
    if !is_utf8(line) {
        return Ok(Line::Malformed);
    }
    let Some((name, behind)) = first_word(line) else {
        return Ok(Line::Passed);
    };
    if is_comment(name) {
        return Ok(Line::Passed);
    }
    let Some((address, behind)) = first_word(behind) else {
        return Ok(Line::Malformed);
    };
    let Some(flags) = read_flags(behind) else {
        return Ok(Line::Malformed);
    };
    read_entry(alloc, name, address, flags)
}

// The flags that the words at the end of a line name, where each word names one.
fn read_flags(words: &[u8]) -> Option<Flags>
    ensures { result ≡ spec.flags_of spec.no_flags (spec.words words.now) }
{
    let mut flags = Flags {
        optional: false,
        values: false,
    };
    let mut left = words;
    while let Some((word, behind)) = first_word(left) {
        flags = with_flag(flags, word)?;
        left = behind;
    }
    Some(flags)
}

// One more flag by its word, unless the word is no flag's, or its flag stands.
fn with_flag(flags: Flags, word: &[u8]) -> Option<Flags>
    ensures { result ≡ spec.with_flag flags word.now }
{
    if is_optional(word) && !flags.optional {
        Some(Flags {
            optional: true,
            values: flags.values,
        })
    } else if is_values(word) && !flags.values {
        Some(Flags {
            optional: flags.optional,
            values: true,
        })
    } else {
        None
    }
}

fn is_optional(word: &[u8]) -> bool
    ensures { result ≡ spec.is_optional word.now }
{
    word == b"optional".as_slice()
}

fn is_values(word: &[u8]) -> bool
    ensures { result ≡ spec.is_values word.now }
{
    word == b"values".as_slice()
}

fn is_utf8(bytes: &[u8]) -> bool
    ensures { result ≡ utf8.is_utf8 bytes.now }
{
    str::from_utf8(bytes).is_ok()
}

fn is_comment(word: &[u8]) -> bool
    ensures { result ≡ spec.is_comment word.now }
{
    match word {
        [] => false,
        [first, ..] => *first == b'#',
    }
}

// The entry of a name, an address and flags.
#[tactic(auto, unfolding(crate::specs::Lines::entry))]
fn read_entry(alloc: Global, name: &[u8], address: &[u8], flags: Flags) -> Result<Line, Memory>
    ensures { IfOk result (λ says. says ≡ spec.entry name.now address.now flags) }
{
    if !is_name(name) {
        return Ok(Line::Malformed);
    }
    let Ok(name) = str::from_utf8(name) else {
        unreachable!()
    };
    let Ok(address) = str::from_utf8(address) else {
        return Ok(Line::Malformed);
    };
    match Iri::read(alloc, address) {
        Ok(iri) => entry_at(alloc, name, iri, flags),
        Err(TermError::Memory) => Err(Memory),
        Err(_) => Ok(Line::Malformed),
    }
}

// The entry of a name, an address that is an IRI, and flags.
fn entry_at(alloc: Global, name: &str, iri: Iri, flags: Flags) -> Result<Line, Memory>
    ensures { IfOk result (λ says. says ≡ spec.entry_at name.now iri (parse_url None iri) flags) }
{
    let url = match Url::parse(alloc, iri.text()) {
        Ok(url) => url,
        Err(ParseError::OutOfMemory | ParseError::Overflow) => return Err(Memory),
        Err(_) => return Ok(Line::Malformed),
    };
    if !is_plain(&url) {
        return Ok(Line::Malformed);
    }
    let Some(endpoint) = endpoint_at(alloc, name, iri, &url)? else {
        return Ok(Line::Malformed);
    };
    if !endpoint.is_sendable() {
        return Ok(Line::Malformed);
    }
    let url = String::from_str(alloc, url.as_str())?;
    let endpoint = endpoint.with_flags(flags);
    Ok(Line::Entry(Entry { endpoint, url }))
}
