//! What tokens say.
ghost use Rattle.std.specs.Prelude.{◌≡◌, All, IfOk};
ghost use Rattle.std.specs.Str.{chars};
ghost use Rattle.fx_tokens.specs.Reads.{IsSlice};
ghost use Rattle.fx_grammar.specs.Classified as spec;

use crate::keywords;
use fx_grammar::{Context, Kind, Service, Text, Token, is};
use fx_terms::{Memory, Name, NameError, TermError};
use fx_tokens::{TokenKind, decoding};
use std::alloc::Global;

/// What the tokens of a text say, each in its place.
pub fn classify(
    alloc: Global,
    text: &str,
    tokens: &[fx_tokens::Token],
) -> Result<Vec<Token>, Memory>
    requires { All (IsSlice text.now) tokens.now }
    ensures { IfOk result (λ said. said.items ≡ spec.classified text.now tokens.now) }
{
    let mut said = Vec::with_capacity(alloc, tokens.len())?;
    let mut context = Context {
        depth: 0,
        service: Service::Outside,
    };
    for token in tokens {
        let word = token_of(
            alloc,
            token.kind,
            &text[token.start as usize..token.end as usize],
        )?;
        let kind = word.kind();
        said.push(placed(context, word))?;
        context = behind(context, kind);
    }
    Ok(said)
}

fn placed(context: Context, token: Token) -> Token
    ensures { result ≡ spec.placed context token }
{
    match token {
        Token::Plain(kind) => Token::Plain(kind_in(context, kind)),
        token => token,
    }
}

fn kind_in(context: Context, kind: Kind) -> Kind
    ensures { result ≡ spec.kind_in context kind }
{
    if is(Kind::LeftBrace, kind) || is(Kind::LeftParen, kind) {
        if context.depth < 64 {
            kind
        } else {
            Kind::TooDeep
        }
    } else if is(Kind::Service, kind) && matches!(context.service, Service::Inside(_)) {
        Kind::InnerService
    } else {
        kind
    }
}

// Where the next token stands.
fn behind(context: Context, kind: Kind) -> Context
    ensures { result ≡ spec.behind context kind }
{
    if is(Kind::LeftBrace, kind) {
        return Context {
            depth: more(context.depth),
            service: opened(context),
        };
    }
    if is(Kind::LeftParen, kind) {
        return Context {
            depth: more(context.depth),
            service: context.service,
        };
    }
    if is(Kind::RightBrace, kind) || is(Kind::RightParen, kind) {
        let open = context.depth.saturating_sub(1);
        return Context {
            depth: open,
            service: closed(open, context.service),
        };
    }
    if is(Kind::Service, kind) {
        return Context {
            depth: context.depth,
            service: named(context.service),
        };
    }
    context
}

fn more(depth: u64) -> u64
    ensures { result ≡ spec.one_more depth }
{
    if depth < 64 { depth + 1 } else { depth }
}

fn opened(context: Context) -> Service
    ensures { result ≡ spec.opened context.depth context.service }
{
    match context.service {
        Service::Outside => Service::Outside,
        Service::Named => Service::Inside(context.depth),
        Service::Inside(before) => Service::Inside(before),
    }
}

fn closed(depth: u64, service: Service) -> Service
    ensures { result ≡ spec.closed depth service }
{
    match service {
        Service::Outside => Service::Outside,
        Service::Named => Service::Named,
        Service::Inside(before) => {
            if depth == before {
                Service::Outside
            } else {
                Service::Inside(before)
            }
        }
    }
}

fn named(service: Service) -> Service
    ensures { result ≡ spec.named service }
{
    match service {
        Service::Outside => Service::Named,
        Service::Named => Service::Named,
        Service::Inside(before) => Service::Inside(before),
    }
}

/// What a token's text says by itself.
fn token_of(alloc: Global, kind: TokenKind, text: &str) -> Result<Token, Memory>
    ensures { IfOk result (λ t. t ≡ spec.token_of kind text.now) }
{
    match kind {
        TokenKind::Iri => iri(alloc, text),
        TokenKind::PrefixName => prefix_name(alloc, text),
        TokenKind::Variable => variable(alloc, decoding::behind_first(text)),
        TokenKind::Blank => Ok(Token::Plain(Kind::Blank)),
        TokenKind::Tag => Ok(Token::Tag(Text::of(alloc, decoding::behind_first(text))?)),
        TokenKind::Integer => Ok(Token::Integer(Text::of(alloc, text)?)),
        TokenKind::Signed => Ok(Token::Signed(Text::of(alloc, text)?)),
        TokenKind::Decimal => Ok(Token::Plain(Kind::Decimal)),
        TokenKind::Text => quoted(alloc, text),
        TokenKind::Word => keywords::word(alloc, text),
        TokenKind::Mark => Ok(keywords::mark(text.as_bytes())),
    }
}

fn iri(alloc: Global, text: &str) -> Result<Token, Memory>
    ensures { IfOk result (λ t. t ≡ spec.iri_of text.now) }
{
    match decoding::iri(alloc, text) {
        Ok(iri) => Ok(Token::Iri(iri)),
        Err(TermError::Memory) => Err(Memory),
        Err(_) => Ok(Token::Plain(Kind::Relative)),
    }
}

fn variable(alloc: Global, text: &str) -> Result<Token, Memory>
    ensures { IfOk result (λ t. t ≡ spec.variable_of (spec.read_name text.now)) }
{
    match Name::read(alloc, text) {
        Ok(name) => Ok(Token::Variable(name)),
        Err(NameError::Memory) => Err(Memory),
        Err(NameError::BadName) => Ok(Token::Plain(Kind::Other)),
    }
}

fn quoted(alloc: Global, text: &str) -> Result<Token, Memory>
    ensures { IfOk result (λ t. t ≡ spec.quoted_of text.now) }
{
    let text = decoding::quoted(alloc, text)?;
    Ok(Token::Text(Text::of(alloc, text.as_str())?))
}

fn prefix_name(alloc: Global, text: &str) -> Result<Token, Memory>
    ensures { IfOk result (λ t. t ≡ spec.prefix_name_of (chars text.now)) }
{
    let (prefix, local) = decoding::prefix_name(alloc, text)?;
    Ok(Token::PrefixName {
        prefix: Text::of(alloc, prefix.as_str())?,
        local: Text::of(alloc, local.as_str())?,
    })
}
