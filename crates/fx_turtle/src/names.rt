//! IRIs, as they stand or by names with prefixes.
ghost use Rattle.std.specs.Prelude.{◌≡◌, ◌++◌, IfOk, Some, None, Ok, string_bytes, false};
ghost use Rattle.std.specs.Str.{bytes_eq, chars};
ghost use Rattle.fx_terms.specs.Datatypes.{lang_string};
ghost use Rattle.fx_terms.specs.Iris.{read_iri};
ghost use Rattle.fx_tokens.specs.Decoding.{iri_text};
ghost use Rattle.fx_grammar.specs.Grammar as queries;
ghost use Rattle.fx_turtle.specs.Gives.{GivesAt};
ghost use Rattle.fx_turtle.specs.Grammar as grammar;
ghost use Rattle.fx_turtle.specs.Rule as rule;
ghost use Rattle.fx_turtle.specs.Sources.{picked, named};
ghost use Rattle.fx_turtle.specs.Symbols as symbol;

use crate::faults::Fault;
use crate::looks::refuse;
use crate::prefixes::Prefixes;
use crate::refusals::TurtleKind;
use crate::sources::Source;
use fx_terms::datatypes::LANG_STRING;
use fx_terms::{Iri, Memory, RecentIris, TermError};
use fx_tokens::{TokenKind, decoding};
use std::alloc::{AllocError, Global};

/// The IRI that a token names, or why it names none, where it is one that does.
fn name_of(
    alloc: Global,
    kind: TokenKind,
    text: &str,
    prefixes: &Prefixes,
    recent: &mut RecentIris,
) -> Result<Option<Result<Iri, TurtleKind>>, Memory>
    ensures { IfOk result (λ r. r ≡ picked grammar.is_iri_name (λ s. grammar.as_turtle (grammar.named_by prefixes.now s)) (symbol.symbol_of kind text.now)) }
{
    match kind {
        TokenKind::Iri => iri_in(alloc, text, recent),
        TokenKind::PrefixName => Ok(Some(prefixed(alloc, text, prefixes, recent)?)),
        TokenKind::Tag => Ok(None),
        TokenKind::Word => Ok(None),
        TokenKind::Mark => Ok(None),
        _ => Ok(None),
    }
}

/// The IRI between `<` and `>`, where it is absolute.
pub fn iri_in(
    alloc: Global,
    text: &str,
    recent: &mut RecentIris,
) -> Result<Option<Result<Iri, TurtleKind>>, Memory>
    ensures { IfOk result (λ r. r ≡ named (read_iri (iri_text text.now))) }
{
    let text = decoding::iri_text(alloc, text)?;
    match recent.read(alloc, text.as_str()) {
        Ok(iri) => Ok(Some(Ok(iri))),
        Err(TermError::Memory) => Err(Memory),
        Err(_) => Ok(None),
    }
}

fn prefixed(
    alloc: Global,
    text: &str,
    prefixes: &Prefixes,
    recent: &mut RecentIris,
) -> Result<Result<Iri, TurtleKind>, Memory>
    ensures { IfOk result (λ r. r ≡ grammar.as_turtle (grammar.named_by prefixes.now (symbol.prefix_name_of (chars text.now)))) }
{
    let (prefix, local) = decoding::prefix_name(alloc, text)?;
    match prefixes.find(prefix.as_str()) {
        Some(base) => expanded(alloc, base, local.as_str(), recent),
        None => Ok(Err(TurtleKind::UnknownPrefix)),
    }
}

fn expanded(
    alloc: Global,
    base: &Iri,
    local: &str,
    recent: &mut RecentIris,
) -> Result<Result<Iri, TurtleKind>, Memory>
    ensures { IfOk result (λ r. r ≡ grammar.as_turtle (queries.expanded (Some base.now) local.now)) }
{
    let text = joined(alloc, base.text(), local)?;
    match recent.read(alloc, text.as_str()) {
        Ok(iri) => Ok(Ok(iri)),
        Err(TermError::Memory) => Err(Memory),
        Err(_) => Ok(Err(TurtleKind::Relative)),
    }
}

fn joined(alloc: Global, first: &str, second: &str) -> Result<String, AllocError>
    ensures { IfOk result (λ s. string_bytes s ≡ first.now ++ second.now) }
{
    let mut text = String::from_str(alloc, first)?;
    text.push_str(second)?;
    Ok(text)
}

/// An IRI, as it stands or by a name with a prefix.
pub fn iri_name(
    alloc: Global,
    source: &Source,
    at: usize,
    prefixes: &Prefixes,
    recent: &mut RecentIris,
) -> Result<(Iri, usize), Fault>
    ensures { GivesAt source.now at result (grammar.iri_name prefixes.now) }
{
    let Some((kind, text, next)) = source.token(at) else {
        return Err(refuse(alloc, source, at, TurtleKind::Unexpected));
    };
    match name_of(alloc, kind, text, prefixes, recent)? {
        Some(Ok(iri)) => Ok((iri, next)),
        Some(Err(why)) => Err(refuse(alloc, source, at, why)),
        None => Err(refuse(alloc, source, at, TurtleKind::Unexpected)),
    }
}

/// An IRI, where one stands next.
pub fn opt_name(
    alloc: Global,
    source: &Source,
    at: usize,
    prefixes: &Prefixes,
    recent: &mut RecentIris,
) -> Result<(Option<Iri>, usize), Fault>
    ensures { GivesAt source.now at result (rule.opt (grammar.iri_name prefixes.now)) }
{
    let Some((kind, text, next)) = source.token(at) else {
        return Ok((None, at));
    };
    match name_of(alloc, kind, text, prefixes, recent)? {
        Some(Ok(iri)) => Ok((Some(iri), next)),
        Some(Err(why)) => Err(refuse(alloc, source, at, why)),
        None => Ok((None, at)),
    }
}

fn is_lang_string(iri: &Iri) -> bool
    ensures { result ≡ bytes_eq iri.now lang_string }
{
    iri.text() == LANG_STRING
}

/// The datatype of a literal.
pub fn datatype(
    alloc: Global,
    source: &Source,
    at: usize,
    prefixes: &Prefixes,
    recent: &mut RecentIris,
) -> Result<(Iri, usize), Fault>
    ensures reads { GivesAt source.now at result (grammar.datatype prefixes.now) }
    ensures other { IfOk result (λ x. bytes_eq x.0 lang_string ≡ false) }
{
    let (iri, next) = iri_name(alloc, source, at, prefixes, recent)?;
    if is_lang_string(&iri) {
        Err(refuse(alloc, source, at, TurtleKind::BadLiteral))
    } else {
        Ok((iri, next))
    }
}
