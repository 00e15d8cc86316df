//! Literals.
ghost use Rattle.std.specs.Prelude.{◌≡◌, IfOk, Ok, Some, string_bytes, false, true, if◌then◌else◌};
ghost use Rattle.std.specs.List.{list_any};
ghost use Rattle.std.specs.Option.{option_map};
ghost use Rattle.std.specs.Str.{bytes_eq};
ghost use Rattle.fx_terms.specs.Datatypes.{lang_string};
ghost use Rattle.fx_terms.specs.Iris.{read_iri};
ghost use Rattle.fx_terms.specs.Literals.{plain as plain_parts, is_tag as is_tag_text};
ghost use Rattle.fx_tokens.specs.Classes.{is_exponent};
ghost use Rattle.fx_tokens.specs.Decoding.{between_quotes};
ghost use Rattle.fx_grammar.specs.Grammar as queries;
ghost use Rattle.fx_turtle.specs.Gives.{Gives, GivesLiteral, texted, tagged, typed};
ghost use Rattle.fx_turtle.specs.Grammar as grammar;
ghost use Rattle.fx_turtle.specs.Rule as rule;
ghost use Rattle.fx_turtle.specs.Sources.{left, picked, as_text, as_tag, as_value};
ghost use Rattle.fx_turtle.specs.Symbols as symbol;

use crate::faults::Fault;
use crate::kinds::Kind;
use crate::looks::{is, mark, refuse, sees, sees_tag, word_kind};
use crate::names::datatype;
use crate::prefixes::Prefixes;
use crate::refusals::TurtleKind;
use crate::sources::Source;
use fx_terms::datatypes::{XSD_BOOLEAN, XSD_INTEGER, XSD_STRING};
use fx_terms::{Iri, Literal, LiteralError, Memory, RecentIris, is_tag};
use fx_tokens::{TokenKind, decoding};
use std::alloc::Global;

const XSD_DECIMAL: &str = "http://www.w3.org/2001/XMLSchema#decimal";

const XSD_DOUBLE: &str = "http://www.w3.org/2001/XMLSchema#double";

/// A literal.
pub fn literal(
    alloc: Global,
    source: &Source,
    at: usize,
    prefixes: &Prefixes,
    recent: &mut RecentIris,
) -> Result<(Literal, usize), Fault>
    ensures { GivesLiteral source.now at result (grammar.literal prefixes.now) }
{
    if sees(source, at, Kind::Text) {
        return texted(alloc, source, at, prefixes, recent);
    }
    value(alloc, source, at, recent)
}

// A text between quotes, and what stands behind it.
fn texted(
    alloc: Global,
    source: &Source,
    at: usize,
    prefixes: &Prefixes,
    recent: &mut RecentIris,
) -> Result<(Literal, usize), Fault>
    ensures { GivesLiteral source.now at result (texted prefixes.now) }
{
    let (form, next) = text(alloc, source, at)?;
    annotated(alloc, form.as_str(), source, next, prefixes, recent)
}

// What stands between quotes.
fn text(alloc: Global, source: &Source, at: usize) -> Result<(String, usize), Fault>
    ensures { Gives (λ x. (string_bytes x.0, left source.now x.1)) result ((rule.one (symbol.is Kind.Text) grammar.text_of).read (left source.now at)) }
{
    let Some((kind, text, next)) = source.token(at) else {
        return Err(refuse(alloc, source, at, TurtleKind::Unexpected));
    };
    match text_in(kind, text) {
        Some(text) => Ok((decoding::quoted(alloc, text)?, next)),
        None => Err(refuse(alloc, source, at, TurtleKind::Unexpected)),
    }
}

fn text_in(kind: TokenKind, text: &str) -> Option<&str>
    ensures { option_map (λ t. as_text t.now) result ≡ picked (symbol.is Kind.Text) grammar.text_of (symbol.symbol_of kind text.now) }
{
    match kind {
        TokenKind::Text => Some(text),
        TokenKind::Iri => None,
        TokenKind::Tag => None,
        TokenKind::Word => None,
        TokenKind::Mark => None,
        _ => None,
    }
}

// The literal of a form, by what stands behind it.
fn annotated(
    alloc: Global,
    form: &str,
    source: &Source,
    at: usize,
    prefixes: &Prefixes,
    recent: &mut RecentIris,
) -> Result<(Literal, usize), Fault>
    ensures { GivesLiteral source.now at result (rule.made (queries.annotated form.now) (rule.opt (grammar.text_suffix prefixes.now))) }
{
    if sees_tag(source, at) {
        return tagged(alloc, form, source, at);
    }
    if sees(source, at, Kind::CaretCaret) {
        return typed(alloc, form, source, at, prefixes, recent);
    }
    Ok((plain(alloc, form, recent)?, at))
}

fn tagged(alloc: Global, form: &str, source: &Source, at: usize) -> Result<(Literal, usize), Fault>
    ensures { GivesLiteral source.now at result (rule.made (tagged form.now) (rule.one grammar.is_any_tag grammar.tag_of)) }
{
    let Some((kind, text, next)) = source.token(at) else {
        return Err(refuse(alloc, source, at, TurtleKind::Unexpected));
    };
    let Some(tag) = tag_in(kind, text) else {
        return Err(refuse(alloc, source, at, TurtleKind::Unexpected));
    };
    if !is_tag(tag) {
        return Err(refuse(alloc, source, at, TurtleKind::Unexpected));
    }
    Ok((with_tag(alloc, form, tag)?, next))
}

fn tag_in(kind: TokenKind, text: &str) -> Option<&str>
    ensures { option_map (λ t. as_tag t.now) result ≡ picked grammar.is_any_tag grammar.tag_of (symbol.symbol_of kind text.now) }
{
    match kind {
        TokenKind::Tag => Some(decoding::behind_first(text)),
        TokenKind::Iri => None,
        TokenKind::Word => None,
        TokenKind::Mark => None,
        _ => None,
    }
}

fn with_tag(alloc: Global, form: &str, tag: &str) -> Result<Literal, Memory>
    requires { is_tag_text tag.now ≡ true }
    ensures { IfOk result (λ l. l ≡ queries.tagged_parts form.now tag.now) }
{
    match Literal::tagged(alloc, form, tag) {
        Ok(literal) => Ok(literal),
        Err(LiteralError::Memory) => Err(Memory),
        Err(_) => unreachable!(),
    }
}

fn typed(
    alloc: Global,
    form: &str,
    source: &Source,
    at: usize,
    prefixes: &Prefixes,
    recent: &mut RecentIris,
) -> Result<(Literal, usize), Fault>
    ensures { GivesLiteral source.now at result (rule.made (typed form.now) (rule.after (rule.token Kind.CaretCaret) (grammar.datatype prefixes.now))) }
{
    let next = mark(alloc, source, at, Kind::CaretCaret)?;
    let (iri, next) = datatype(alloc, source, next, prefixes, recent)?;
    Ok((with_datatype(alloc, form, &iri)?, next))
}

fn with_datatype(alloc: Global, form: &str, datatype: &Iri) -> Result<Literal, Memory>
    requires { bytes_eq datatype.now lang_string ≡ false }
    ensures { IfOk result (λ l. l ≡ queries.typed_parts form.now datatype.now) }
{
    match Literal::typed(alloc, form, datatype) {
        Ok(literal) => Ok(literal),
        Err(LiteralError::Memory) => Err(Memory),
        Err(_) => unreachable!(),
    }
}

// The literal of a form alone. The text of its datatype is shared.
fn plain(alloc: Global, form: &str, recent: &mut RecentIris) -> Result<Literal, Memory>
    ensures { IfOk result (λ l. l ≡ plain_parts form.now) }
{
    constant(alloc, form, XSD_STRING, recent)
}

// The literal of a form and a datatype that has a meaning of its own.
fn constant(
    alloc: Global,
    form: &str,
    datatype: &str,
    recent: &mut RecentIris,
) -> Result<Literal, Memory>
    requires iri { read_iri datatype.now ≡ Ok datatype.now }
    requires other { bytes_eq datatype.now lang_string ≡ false }
    ensures { IfOk result (λ l. l ≡ queries.typed_parts form.now datatype.now) }
{
    let datatype = recent.known(alloc, datatype)?;
    with_datatype(alloc, form, &datatype)
}

// A number or a truth value.
fn value(
    alloc: Global,
    source: &Source,
    at: usize,
    recent: &mut RecentIris,
) -> Result<(Literal, usize), Fault>
    ensures { GivesLiteral source.now at result (rule.one grammar.is_value grammar.value_of) }
{
    let Some((kind, text, next)) = source.token(at) else {
        return Err(refuse(alloc, source, at, TurtleKind::Unexpected));
    };
    match value_in(alloc, kind, text, recent)? {
        Some(literal) => Ok((literal, next)),
        None => Err(refuse(alloc, source, at, TurtleKind::Unexpected)),
    }
}

fn value_in(
    alloc: Global,
    kind: TokenKind,
    text: &str,
    recent: &mut RecentIris,
) -> Result<Option<Literal>, Memory>
    ensures { IfOk result (λ l. option_map as_value l ≡ picked grammar.is_value grammar.value_of (symbol.symbol_of kind text.now)) }
{
    match kind {
        TokenKind::Integer => Ok(Some(constant(alloc, text, XSD_INTEGER, recent)?)),
        TokenKind::Signed => Ok(Some(constant(alloc, text, XSD_INTEGER, recent)?)),
        TokenKind::Decimal => Ok(Some(decimal(alloc, text, recent)?)),
        TokenKind::Word => truth(alloc, text, recent),
        TokenKind::Iri => Ok(None),
        TokenKind::Tag => Ok(None),
        TokenKind::Mark => Ok(None),
        _ => Ok(None),
    }
}

fn decimal(alloc: Global, text: &str, recent: &mut RecentIris) -> Result<Literal, Memory>
    ensures { IfOk result (λ l. l ≡ queries.typed_parts text.now (if list_any is_exponent text.now then symbol.xsd_double else symbol.xsd_decimal)) }
{
    if has_exponent(text.as_bytes()) {
        constant(alloc, text, XSD_DOUBLE, recent)
    } else {
        constant(alloc, text, XSD_DECIMAL, recent)
    }
}

fn has_exponent(text: &[u8]) -> bool
    ensures { result ≡ list_any is_exponent text.now }
{
    text.iter().any(|b| *b == b'e' || *b == b'E')
}

fn truth(alloc: Global, text: &str, recent: &mut RecentIris) -> Result<Option<Literal>, Memory>
    ensures { IfOk result (λ l. option_map as_value l ≡ picked grammar.is_value grammar.value_of (symbol.word_of text.now)) }
{
    if is(Kind::Truth, word_kind(text.as_bytes())) {
        Ok(Some(constant(alloc, text, XSD_BOOLEAN, recent)?))
    } else {
        Ok(None)
    }
}
