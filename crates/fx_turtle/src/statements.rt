//! Statements, and the windows that they are.
ghost use Rattle.std.specs.Prelude.{◌≡◌, IfOk, []};
ghost use Rattle.std.specs.Str.{chars};
ghost use Rattle.fx_turtle.specs.Gives.{Gives, GivesAt, Takes};
ghost use Rattle.fx_turtle.specs.Grammar as grammar;
ghost use Rattle.fx_turtle.specs.Rule as rule;
ghost use Rattle.fx_turtle.specs.Sources.{left, picked};
ghost use Rattle.fx_turtle.specs.Symbols as symbol;
ghost use Rattle.fx_turtle.specs.Windows.{ReadsWindow};

use crate::faults::Fault;
use crate::kinds::Kind;
use crate::looks::{mark, refuse, sees, sees_base};
use crate::names::iri_in;
use crate::prefixes::Prefixes;
use crate::refusals::TurtleKind;
use crate::sources::Source;
use crate::triples::subject_triples;
use fx_grammar::Text;
use fx_terms::{Iri, Memory, RecentIris, Triple};
use fx_tokens::{TokenKind, decoding};
use std::alloc::Global;

/// The statements that all the tokens are: prefixes and triples more.
pub fn window(
    alloc: Global,
    source: &Source,
    prefixes: &mut Prefixes,
    recent: &mut RecentIris,
    triples: &mut Vec<Triple>,
) -> Result<(), Fault>
    ensures { ReadsWindow prefixes.old prefixes.new triples.old.items triples.new.items (left source.now 0) result }
{
    let mut at = 0;
    'each: while source.count(at) > 0 {
        at = statement(alloc, source, at, prefixes, recent, triples)?;
    }
    Ok(())
}

// A statement: a prefix more, or triples more.
fn statement(
    alloc: Global,
    source: &Source,
    at: usize,
    prefixes: &mut Prefixes,
    recent: &mut RecentIris,
    triples: &mut Vec<Triple>,
) -> Result<usize, Fault>
    ensures { Takes source.now at prefixes.old prefixes.new triples.old.items triples.new.items result (grammar.statement prefixes.old) }
{
    if sees(source, at, Kind::AtPrefix) {
        let next = mark(alloc, source, at, Kind::AtPrefix)?;
        let next = declare(alloc, source, next, prefixes, recent)?;
        let next = mark(alloc, source, next, Kind::Dot)?;
        return Ok(next);
    }
    if sees(source, at, Kind::Prefix) {
        let next = mark(alloc, source, at, Kind::Prefix)?;
        let next = declare(alloc, source, next, prefixes, recent)?;
        return Ok(next);
    }
    if sees_base(source, at) {
        return Err(refuse(alloc, source, at, TurtleKind::Unsupported));
    }
    let next = subject_triples(alloc, source, at, prefixes, recent, triples)?;
    let next = mark(alloc, source, next, Kind::Dot)?;
    Ok(next)
}

// A prefix with its IRI, which is declared.
fn declare(
    alloc: Global,
    source: &Source,
    at: usize,
    prefixes: &mut Prefixes,
    recent: &mut RecentIris,
) -> Result<usize, Fault>
    ensures { Takes source.now at prefixes.old prefixes.new [] [] result grammar.declaration }
{
    let (prefix, iri, next) = declaration(alloc, source, at, recent)?;
    prefixes.declare(alloc, prefix.as_str(), iri)?;
    Ok(next)
}

#[tactic(auto, unfolding(crate::specs::Grammar::declaration))]
fn declaration(
    alloc: Global,
    source: &Source,
    at: usize,
    recent: &mut RecentIris,
) -> Result<(Text, Iri, usize), Fault>
    ensures { Gives (λ x. (grammar.declares x.0 x.1, left source.now x.2)) result (grammar.declaration.read (left source.now at)) }
{
    let (prefix, next) = namespace(alloc, source, at)?;
    let (iri, next) = iri(alloc, source, next, recent)?;
    Ok((prefix, iri, next))
}

// The prefix that is declared.
fn namespace(alloc: Global, source: &Source, at: usize) -> Result<(Text, usize), Fault>
    ensures { GivesAt source.now at result (rule.one (symbol.is Kind.PrefixName) grammar.namespace_of) }
{
    let Some((kind, text, next)) = source.token(at) else {
        return Err(refuse(alloc, source, at, TurtleKind::Unexpected));
    };
    match namespace_in(alloc, kind, text)? {
        Some(Ok(prefix)) => Ok((prefix, next)),
        Some(Err(why)) => Err(refuse(alloc, source, at, why)),
        None => Err(refuse(alloc, source, at, TurtleKind::Unexpected)),
    }
}

fn namespace_in(
    alloc: Global,
    kind: TokenKind,
    text: &str,
) -> Result<Option<Result<Text, TurtleKind>>, Memory>
    ensures { IfOk result (λ r. r ≡ picked (symbol.is Kind.PrefixName) grammar.namespace_of (symbol.symbol_of kind text.now)) }
{
    match kind {
        TokenKind::PrefixName => Ok(Some(prefix_alone(alloc, text)?)),
        TokenKind::Iri => Ok(None),
        TokenKind::Tag => Ok(None),
        TokenKind::Word => Ok(None),
        TokenKind::Mark => Ok(None),
        _ => Ok(None),
    }
}

// The prefix of a name, where nothing stands behind its colon.
fn prefix_alone(alloc: Global, text: &str) -> Result<Result<Text, TurtleKind>, Memory>
    ensures { IfOk result (λ r. r ≡ grammar.namespace_of (symbol.prefix_name_of (chars text.now))) }
{
    let (prefix, local) = decoding::prefix_name(alloc, text)?;
    if local.as_str().is_empty() {
        Ok(Ok(Text::of(alloc, prefix.as_str())?))
    } else {
        Ok(Err(TurtleKind::Unexpected))
    }
}

// An IRI as it stands.
fn iri(
    alloc: Global,
    source: &Source,
    at: usize,
    recent: &mut RecentIris,
) -> Result<(Iri, usize), Fault>
    ensures { GivesAt source.now at result (rule.one (symbol.is Kind.Iri) grammar.iri_of) }
{
    let Some((kind, text, next)) = source.token(at) else {
        return Err(refuse(alloc, source, at, TurtleKind::Unexpected));
    };
    match iri_alone(alloc, kind, text, recent)? {
        Some(Ok(iri)) => Ok((iri, next)),
        Some(Err(why)) => Err(refuse(alloc, source, at, why)),
        None => Err(refuse(alloc, source, at, TurtleKind::Unexpected)),
    }
}

fn iri_alone(
    alloc: Global,
    kind: TokenKind,
    text: &str,
    recent: &mut RecentIris,
) -> Result<Option<Result<Iri, TurtleKind>>, Memory>
    ensures { IfOk result (λ r. r ≡ picked (symbol.is Kind.Iri) grammar.iri_of (symbol.symbol_of kind text.now)) }
{
    match kind {
        TokenKind::Iri => iri_in(alloc, text, recent),
        TokenKind::Tag => Ok(None),
        TokenKind::Word => Ok(None),
        TokenKind::Mark => Ok(None),
        _ => Ok(None),
    }
}
