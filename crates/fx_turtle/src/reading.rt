//! Documents are read.
ghost use Rattle.std.specs.Prelude.{◌≡◌, ℕ, Err, ◌≤◌, List, drop, length, IfOk, IfErr, MatchResult};
ghost use Rattle.std.specs.Str.{chars, IsCharBoundary};
ghost use Rattle.fx_terms.specs.declared.triples.Triple.{Triple as TripleParts};
ghost use Rattle.fx_tokens.specs.Scan.{Barren};
ghost use Rattle.fx_grammar.specs.Refused.{place_of as token_place};
ghost use Rattle.fx_turtle.specs.Answers as answers;
ghost use Rattle.fx_turtle.specs.Documents.{IsTurtle, IsTurtleOf, IsRefused, RefusesSo};
ghost use Rattle.fx_turtle.specs.Windows.{Filled};
ghost use Rattle.fx_turtle.specs.declared.refusals.TurtleKind.{TurtleKind as Kind};

use crate::faults::Fault;
use crate::prefixes::Prefixes;
use crate::refusals::{TurtleError, TurtleKind};
use crate::sources::Source;
use crate::statements::window;
use crate::windows::{Position, fill, scan};
use fx_terms::{Graph, Memory, RecentIris, Triple, read_utf8};
use fx_tokens::{Token, TokenError};
use std::alloc::Global;

/// The graph that a Turtle document is (RDF 1.1 Turtle), in this project's profile: IRIs are absolute, there are no blank nodes,
/// collections and bases, and tags are kept in lower case.
///
/// `BadUtf8` is looked for first, then `BadToken` over the whole text. Each other refusal comes at the first token from the left at
/// which the grammar stops, or at the text's end. Places count bytes.
pub fn read_turtle(alloc: Global, bytes: &[u8]) -> Result<Graph, TurtleError>
    // What is read is a document, and this is its graph.
    ensures found { IfOk result (IsTurtleOf bytes.now) }

    // A document is read, as its graph and no other, unless memory runs out.
    ensures only { (graph : List TripleParts) → IsTurtleOf bytes.now graph → MatchResult result (λ g. g ≡ graph) (λ e. e ≡ TurtleError.Memory) }

    // A refusal has its reason and its place.
    ensures refused { (kind : Kind) (place : ℕ) → result ≡ Err (TurtleError.Refused kind place) → IsRefused bytes.now kind place }

    // Where there is a reason to refuse, this one is answered, unless memory runs out.
    ensures refused_only { (kind : Kind) (place : ℕ) → IsRefused bytes.now kind place → RefusesSo result kind place }
{
    read_bytes(alloc, bytes)
}

fn read_bytes(alloc: Global, bytes: &[u8]) -> Result<Graph, TurtleError>
    ensures { answers.IsAnswer bytes.now result }
{
    match read_utf8(bytes) {
        Ok(text) => read_text(alloc, text),
        Err(place) => {
            Err(TurtleError::Refused {
                kind: TurtleKind::BadUtf8,
                place: place as u64,
            })
        }
    }
}

fn read_text(alloc: Global, text: &str) -> Result<Graph, TurtleError>
    ensures { answers.IsAnswer text.now result }
{
    match triples(alloc, text) {
        Ok(triples) => match Graph::of(triples) {
            Ok(graph) => Ok(graph),
            Err(Memory) => Err(TurtleError::Memory),
        },
        Err(error) => Err(error),
    }
}

// The triples of the document that the text is. One window of tokens stands in memory at a time.
fn triples(alloc: Global, text: &str) -> Result<Vec<Triple>, TurtleError>
    ensures found { IfOk result (λ triples. IsTurtle text.now triples.items) }
    ensures refused { IfErr result (answers.IsCause text.now) }
{
    // (prefixes make IRIs short, so there are more of them than in a text of N-Triples)
    let Ok(mut recent) = RecentIris::of_document(alloc, text.len().saturating_mul(3)) else {
        return Err(TurtleError::Memory);
    };
    let mut prefixes = Prefixes::new(alloc);
    let mut triples = Vec::new(alloc);
    let mut tokens = Vec::new(alloc);
    let mut at = next_window(text, start(text), &mut tokens)?;
    'each: while !tokens.is_empty() {
        let source = Source::of(text, tokens.as_slice());
        if let Err(fault) = window(alloc, &source, &mut prefixes, &mut recent, &mut triples) {
            return Err(refusal(text, tokens.as_slice(), at, fault));
        }
        at = next_window(text, at, &mut tokens)?;
    }
    Ok(triples)
}

fn start(text: &str) -> Position
    ensures place { result.place ≡ 0 }
    ensures barren { Barren result.barren (chars text.now) }
{
    Position {
        place: 0,
        barren: text.len(),
    }
}

fn next_window(text: &str, from: Position, window: &mut Vec<Token>) -> Result<Position, TurtleError>
    requires place { IsCharBoundary text.now from.place }
    requires barren { Barren from.barren (chars (drop from.place text.now)) }
    ensures filled { IfOk result (Filled text.now from.place window.new.items) }
    ensures refused { IfErr result (answers.NoToken text.now from.place) }
{
    match fill(text, from, window) {
        Ok(to) => Ok(to),
        Err(error) => Err(bad_token(error)),
    }
}

fn bad_token(error: TokenError) -> TurtleError
    ensures { result ≡ answers.bad_token error }
{
    match error {
        TokenError::Bad { place, fault: _ } => TurtleError::Refused {
            kind: TurtleKind::BadToken,
            place,
        },
        TokenError::Memory => TurtleError::Memory,
    }
}

// Why a text is refused whose grammar has a fault in a window, behind which it is read from a position on. A place where no token
// stands comes first.
fn refusal(text: &str, window: &[Token], behind: Position, fault: Fault) -> TurtleError
    requires place { IsCharBoundary text.now behind.place }
    requires barren { Barren behind.barren (chars (drop behind.place text.now)) }
    requires within { answers.StandsWithin (length window.now) fault }
    ensures { answers.RefusesAt text.now window.now behind.place fault result }
{
    match fault {
        Fault::Refused { why, left } => match scan(text, behind) {
            Ok(()) => TurtleError::Refused {
                kind: why,
                place: place_of(text, window, left),
            },
            Err(error) => bad_token(error),
        },
        Fault::Memory => TurtleError::Memory,
    }
}

// Where the tokens begin of which so many are left.
fn place_of(text: &str, read: &[Token], left: usize) -> u64
    requires { left ≤ length read.now }
    ensures { result ≡ token_place text.now read.now left }
{
    if left == 0 {
        return text.len() as u64;
    }
    read[read.len() - left].start
}
