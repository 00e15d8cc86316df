//! The query that a text is.

ghost use Rattle.std.specs.Prelude.{◌≡◌, ◌⊎◌, ℕ, ◌≤◌, All, length, IfOk, IfErr, MatchResult};
ghost use Rattle.fx_algebra.specs.declared.queries.Query.{Query as QueryTree};
ghost use Rattle.fx_tokens.specs.Reads.{IsSlice};
ghost use Rattle.fx_grammar.specs.declared.refusals.SyntaxKind.{SyntaxKind as Kind};
ghost use Rattle.fx_grammar.specs.Accepted.{Accepted};
ghost use Rattle.fx_syntax.specs.Answers as answers;
ghost use Rattle.fx_grammar.specs.Refused as spec;

use crate::queries::whole_query;
use fx_algebra::Query;
use fx_grammar::{SyntaxError, SyntaxKind};
use fx_lexicon::classify;
use fx_readers::Fault;
use fx_terms::read_utf8;
use fx_tokens::{Token, TokenError, tokens};
use std::alloc::Global;

/// The query that a text is (SPARQL 1.1 section 19.8, in this project's profile).
///
/// `BadUtf8` is looked for first, then `BadToken` over the whole text. Each other refusal comes at the first token from the left
/// at which the grammar stops, or at the text's end; where several reasons hold of a token, `TooDeep` comes before
/// `UnknownPrefix`, `RelativeIri`, `BlankNode`, `Decimal`, `BadLiteral`, `BindInScope`, `ValuesWidth`, `RepeatedName`,
/// `NumberTooWide`, `Unsupported` and `Unexpected`, in this order.
pub fn parse(alloc: Global, bytes: &[u8]) -> Result<Query, SyntaxError>
    // What is read is what the text spells.
    ensures found { IfOk result (Accepted bytes.now) }

    // A text that spells a query is read, as this query and no other, unless memory runs out.
    ensures only { (q : QueryTree) → Accepted bytes.now q → MatchResult result (λ r. r ≡ q) (λ e. e ≡ SyntaxError.Memory) }

    // A refusal has its reason and its place.
    ensures refused { IfErr result (spec.IsCause bytes.now) }

    // Where there is a reason to refuse, this one is answered, unless memory runs out.
    ensures first { (kind : Kind) (place : ℕ) → spec.IsRefused bytes.now kind place → MatchResult result (λ q. ⊥) (λ e. (e ≡ SyntaxError.Memory) ⊎ (e ≡ SyntaxError.Refused kind place)) }
{
    parse_bytes(alloc, bytes)
}

fn parse_bytes(alloc: Global, bytes: &[u8]) -> Result<Query, SyntaxError>
    ensures { answers.IsAnswer bytes.now result }
{
    match read_utf8(bytes) {
        Ok(text) => parse_text(alloc, text),
        Err(place) => {
            Err(SyntaxError::Refused {
                kind: SyntaxKind::BadUtf8,
                place: place as u64,
            })
        }
    }
}

fn parse_text(alloc: Global, text: &str) -> Result<Query, SyntaxError>
    ensures { answers.IsAnswer text.now result }
{
    match tokens(alloc, text) {
        Ok(read) => parse_tokens(alloc, text, read.as_slice()),
        Err(error) => Err(bad_token(error)),
    }
}

fn bad_token(error: TokenError) -> SyntaxError
    ensures { result ≡ answers.bad_token error }
{
    match error {
        TokenError::Bad { place, fault: _ } => SyntaxError::Refused {
            kind: SyntaxKind::BadToken,
            place,
        },
        TokenError::Memory => SyntaxError::Memory,
    }
}

fn parse_tokens(alloc: Global, text: &str, read: &[Token]) -> Result<Query, SyntaxError>
    requires { All (IsSlice text.now) read.now }
    ensures { answers.AnswersTokens text.now read.now result }
{
    let said = classify(alloc, text, read)?;
    match whole_query(alloc, said.as_slice()) {
        Ok(query) => Ok(query.into_inner()),
        Err(fault) => Err(fault_at(text, read, fault)),
    }
}

fn fault_at(text: &str, read: &[Token], fault: Fault) -> SyntaxError
    requires { answers.StandsWithin (length read.now) fault }
    ensures { result ≡ answers.fault_at text.now read.now fault }
{
    match fault {
        Fault::Refused { why, left } => SyntaxError::Refused {
            kind: why,
            place: place_of(text, read, left),
        },
        Fault::Memory => SyntaxError::Memory,
    }
}

// Where the tokens begin of which so many are left.
fn place_of(text: &str, read: &[Token], left: usize) -> u64
    requires { left ≤ length read.now }
    ensures { result ≡ spec.place_of text.now read.now left }
{
    if left == 0 {
        return text.len() as u64;
    }
    read[read.len() - left].start
}
