//! A line: nothing, or a triple.
ghost use Rattle.std.specs.Prelude.{◌≡◌, IfOk, ◌+◌, ◌<◌, ◌≤◌, Some, length, drop, true, false};
ghost use Rattle.std.specs.Str.{IsCharBoundary, IsUtf8};
ghost use Rattle.fx_ntriples.specs.Reading as spec;
ghost use Rattle.fx_ntriples.specs.Answers.{Reads};
ghost use Rattle.fx_terms.specs.Literals as literals;

use crate::faults::{Fault, Stop};
use crate::quotes::{Quote, quoted};
use fx_terms::blanks::is_blank;
use fx_terms::datatypes::XSD_STRING;
use fx_terms::{Iri, Literal, LiteralError, Memory, RecentIris, Term, TermError, Triple};
use std::alloc::Global;

/// The triple of a line, if it has one, and a place at which nothing follows.
#[tactic(auto, unfolding(crate::specs::Reading::line))]
pub fn line(
    alloc: Global,
    line: &str,
    recent: &mut RecentIris,
) -> Result<(Option<Triple>, usize), Stop>
    ensures { Reads line.now result (spec.line line.now) }
{
    let bytes = line.as_bytes();
    let at = blanks_end(bytes, 0);
    if at == bytes.len() || bytes[at] == b'#' {
        return Ok((None, bytes.len()));
    }
    let (triple, at) = triple(alloc, line, at, recent)?;
    ended(line, at, triple)
}

// A triple, where only blanks and maybe a comment stand behind it.
fn ended(line: &str, at: usize, triple: Triple) -> Result<(Option<Triple>, usize), Stop>
    requires { at ≤ length line.now }
    ensures { Reads line.now result (spec.ended (Some triple) (spec.unblanked (drop at line.now))) }
{
    let bytes = line.as_bytes();
    let at = blanks_end(bytes, at);
    if at == bytes.len() || bytes[at] == b'#' {
        return Ok((Some(triple), bytes.len()));
    }
    Err(Stop::At(Fault::Bad, at))
}

// Where the blanks from a place on end.
fn blanks_end(line: &[u8], from: usize) -> usize
    requires { from ≤ length line.now }
    ensures rest { drop result line.now ≡ spec.unblanked (drop from line.now) }
    ensures within { result ≤ length line.now }
{
    let mut end = from;
    while end < line.len() && is_blank(line[end] as char) {
        end += 1;
    }
    end
}

fn triple(
    alloc: Global,
    line: &str,
    at: usize,
    recent: &mut RecentIris,
) -> Result<(Triple, usize), Stop>
    requires { at < length line.now }
    ensures { Reads line.now result (spec.triple (drop at line.now)) }
{
    let bytes = line.as_bytes();
    let (subject, at) = subject(alloc, line, at, recent)?;
    let at = blanks_end(bytes, at);
    let (predicate, at) = iri(alloc, line, at, recent)?;
    let at = blanks_end(bytes, at);
    let (object, at) = object(alloc, line, at, recent)?;
    let triple = Triple {
        subject,
        predicate,
        object,
    };
    dotted(line, at, triple)
}

// A triple, where a dot stands behind it.
fn dotted(line: &str, at: usize, triple: Triple) -> Result<(Triple, usize), Stop>
    requires { at ≤ length line.now }
    ensures { Reads line.now result (spec.dotted triple (spec.unblanked (drop at line.now))) }
{
    let bytes = line.as_bytes();
    let at = blanks_end(bytes, at);
    if at == bytes.len() || bytes[at] != b'.' {
        return Err(Stop::At(Fault::Bad, at));
    }
    Ok((triple, at + 1))
}

fn subject(
    alloc: Global,
    line: &str,
    at: usize,
    recent: &mut RecentIris,
) -> Result<(Iri, usize), Stop>
    requires { at ≤ length line.now }
    ensures { Reads line.now result (spec.subject (drop at line.now)) }
{
    let bytes = line.as_bytes();
    if at < bytes.len() && bytes[at] == b'_' {
        return Err(Stop::At(Fault::Blank, at));
    }
    iri(alloc, line, at, recent)
}

// The IRI that begins at a place, and where it ends.
fn iri(alloc: Global, line: &str, at: usize, recent: &mut RecentIris) -> Result<(Iri, usize), Stop>
    requires { at ≤ length line.now }
    ensures { Reads line.now result (spec.iri (drop at line.now)) }
{
    let bytes = line.as_bytes();
    if at == bytes.len() || bytes[at] != b'<' {
        return Err(Stop::At(Fault::Bad, at));
    }
    let (text, next) = quoted(alloc, line, at + 1, Quote::Iri)?;
    match recent.read(alloc, text.text()) {
        Ok(iri) => Ok((iri, next)),
        Err(TermError::Memory) => Err(Stop::Memory),
        Err(_) => Err(Stop::At(Fault::Relative, at)),
    }
}

fn object(
    alloc: Global,
    line: &str,
    at: usize,
    recent: &mut RecentIris,
) -> Result<(Term, usize), Stop>
    requires { at ≤ length line.now }
    ensures { Reads line.now result (spec.object (drop at line.now)) }
{
    let bytes = line.as_bytes();
    if at == bytes.len() {
        return Err(Stop::At(Fault::Bad, at));
    }
    if bytes[at] == b'_' {
        return Err(Stop::At(Fault::Blank, at));
    }
    if bytes[at] == b'"' {
        let (form, next) = quoted(alloc, line, at + 1, Quote::Text)?;
        return literal(alloc, line, next, form.text(), recent);
    }
    let (iri, next) = iri(alloc, line, at, recent)?;
    Ok((Term::Iri(iri), next))
}

// The literal of a form, by what follows its closing quote.
fn literal(
    alloc: Global,
    line: &str,
    at: usize,
    form: &str,
    recent: &mut RecentIris,
) -> Result<(Term, usize), Stop>
    requires { at ≤ length line.now }
    ensures { Reads line.now result (spec.literal form.now (drop at line.now)) }
{
    let bytes = line.as_bytes();
    if at < bytes.len() && bytes[at] == b'@' {
        return tagged(alloc, line, at + 1, form);
    }
    let at = blanks_end(bytes, at);
    if at < bytes.len() && bytes[at] == b'^' {
        return typed(alloc, line, at + 1, form, recent);
    }
    let literal = plain(alloc, form, recent)?;
    Ok((Term::Literal(literal), at))
}

// The literal of a form alone. The text of its datatype is shared.
fn plain(alloc: Global, form: &str, recent: &mut RecentIris) -> Result<Literal, Memory>
    ensures { IfOk result (λ literal. literal ≡ literals.plain form.now) }
{
    let datatype = recent.known(alloc, XSD_STRING)?;
    match Literal::typed(alloc, form, &datatype) {
        Ok(literal) => Ok(literal),
        Err(_) => Err(Memory),
    }
}

fn tagged(alloc: Global, line: &str, at: usize, form: &str) -> Result<(Term, usize), Stop>
    requires { IsCharBoundary line.now at }
    ensures { Reads line.now result (spec.with_tag form.now (drop at line.now)) }
{
    let end = tag_end(line.as_bytes(), at);
    match Literal::tagged(alloc, form, &line[at..end]) {
        Ok(literal) => Ok((Term::Literal(literal), end)),
        Err(LiteralError::Memory) => Err(Stop::Memory),
        Err(_) => Err(Stop::At(Fault::Bad, end)),
    }
}

// Where the bytes from a place on end that begin a tag.
#[tactic(auto, unfolding(crate::specs::Reading::tag_len))]
fn tag_end(line: &[u8], at: usize) -> usize
    requires utf8 { IsUtf8 line.now }
    requires boundary { IsCharBoundary line.now at }
    ensures place { result ≡ at + spec.tag_len true true (drop at line.now) }
    ensures cut { IsCharBoundary line.now result }
{
    let mut end = at;
    let mut is_first = true;
    let mut is_empty = true;
    while end < line.len() {
        let b = line[end];
        if in_part(is_first, b) {
            is_empty = false;
        } else if b == b'-' && !is_empty {
            is_first = false;
            is_empty = true;
        } else {
            return end;
        }
        end += 1;
    }
    end
}

fn in_part(is_first: bool, b: u8) -> bool
    ensures { result ≡ spec.in_part is_first b }
{
    if is_first {
        b.is_ascii_alphabetic()
    } else {
        b.is_ascii_alphanumeric()
    }
}

fn typed(
    alloc: Global,
    line: &str,
    at: usize,
    form: &str,
    recent: &mut RecentIris,
) -> Result<(Term, usize), Stop>
    requires { at ≤ length line.now }
    ensures { Reads line.now result (spec.with_datatype form.now (drop at line.now)) }
{
    let bytes = line.as_bytes();
    if at == bytes.len() || bytes[at] != b'^' {
        return Err(Stop::At(Fault::Bad, at));
    }
    let start = blanks_end(bytes, at + 1);
    let (datatype, next) = iri(alloc, line, start, recent)?;
    match Literal::typed(alloc, form, &datatype) {
        Ok(literal) => Ok((Term::Literal(literal), next)),
        Err(LiteralError::Memory) => Err(Stop::Memory),
        Err(_) => Err(Stop::At(Fault::Bad, start)),
    }
}
