//! The tokens of SPARQL 1.1 (section 19.8).
//!
//! Each kind of token is a form of texts, written as in the grammar. What a text reads as is a relation over those forms and
//! no loop: the longest front that is of a kind, and then what follows it. One function for each kind finds its longest front,
//! and the longest of the eleven is the token. No part of the text is copied.
#![tactic(auto)]

mod classes;
pub mod decoding;
mod kinds;
pub mod laws;
mod parts;
mod reading;

ghost use Rattle.std.specs.Prelude.{◌≡◌, All, List, drop, Result as Answer, Ok, Err, IfOk, IfErr, IfSome, MatchResult};
ghost use Rattle.std.specs.Str.{chars, IsCharBoundary};
ghost use Rattle.fx_tokens.specs.Answers.{UnlessMemory};
ghost use Rattle.fx_tokens.specs.Reads.{Reads, IsSlice, RiseFrom, AnswersNext};
ghost use Rattle.fx_tokens.specs.Scan.{Barren};

use crate::classes::{Class, is_white_space};
use crate::kinds::barren_behind;
use crate::parts::{skip, split_first, width};
use crate::reading::{fault, longest};
use fx_terms::shareable;
use std::alloc::{AllocError, AllocFailed, Global};

/// What a token is.
#[derive(Clone, Copy, PartialEq, Eq)]
pub enum TokenKind {
    /// An IRI between `<` and `>`.
    Iri,
    /// A name with a prefix, which may be empty, as may be what follows the colon.
    PrefixName,
    /// A variable, with its `?` or `$`.
    Variable,
    /// The label of a blank node, with its `_:`.
    Blank,
    /// A language tag, with its `@`.
    Tag,
    /// Digits.
    Integer,
    /// A sign and digits.
    Signed,
    /// A decimal or a double, with a sign or without.
    Decimal,
    /// A text between one or three quotes, with them.
    Text,
    /// A keyword, whatever it says.
    Word,
    /// A mark of punctuation.
    Mark,
}

/// A token of a text: its kind, and the byte places in the text where it begins and behind its end.
#[derive(Clone, Copy, PartialEq, Eq)]
pub struct Token {
    pub kind: TokenKind,
    pub start: u64,
    pub end: u64,
}

/// The next token of a text, and what is known of names with a prefix behind it: none begins where more than `barren` bytes are left.
#[derive(Clone, Copy)]
pub struct Next {
    pub token: Token,
    pub barren: usize,
}

/// Why no token stands where one would begin.
#[derive(Clone, Copy, Debug, PartialEq, Eq)]
pub enum TokenFault {
    /// No token begins with the character.
    Character,
    /// A backslash within a text between quotes begins no escape, or one that names no character.
    Escape,
    /// A text between quotes has no end on its line.
    Unclosed,
}

/// Why a text isn't tokens.
#[derive(Clone, Copy, Debug, PartialEq, Eq)]
pub enum TokenError {
    /// The first fault, and its byte place: that of the character, the backslash or the quote.
    Bad { place: u64, fault: TokenFault },
    /// Memory ran out.
    Memory,
}

impl From<AllocError> for TokenError {
    ghost use Rattle.std.specs.Prelude.{◌≡◌};
    ghost use Rattle.fx_tokens.specs.declared.TokenError.TheVariants.{Memory};

    ghost from_gives = { λ _ e. e ≡ Memory };

    fn from(_error: AllocError) -> TokenError {
        TokenError::Memory
    }
}

impl<T: Drop> From<AllocFailed<T>> for TokenError {
    ghost use Rattle.std.specs.Prelude.{◌≡◌};
    ghost use Rattle.fx_tokens.specs.declared.TokenError.TheVariants.{Memory};

    ghost from_gives = { λ _ e. e ≡ Memory };

    fn from(_error: AllocFailed<T>) -> TokenError {
        TokenError::Memory
    }
}

/// The tokens of a text, from left to right, each the longest that begins at its place; white space and comments are passed
/// over (SPARQL 1.1 sections 19.4, 19.7 and 19.8). Escapes by a character's number stand in IRIs and in texts between quotes.
///
/// `Bad` gives the first place where no token stands, and why. Takes time by the length of the text.
pub fn tokens(alloc: Global, text: &str) -> Result<Vec<Token>, TokenError>
    ensures found { IfOk result (λ tokens. Reads 0 (chars text.now) (Ok tokens.items)) }
    ensures refused { IfErr result (λ e. UnlessMemory e (Reads 0 (chars text.now) (Err e))) }

    // A text reads as nothing else.
    ensures only { (answer : Answer (List Token) TokenError) → Reads 0 (chars text.now) answer → MatchResult result (λ tokens. answer ≡ Ok tokens.items) (λ e. UnlessMemory e (answer ≡ Err e)) }

    // Each token is the slice of the text between its places, and none begins before the one before it ends.
    ensures slices { IfOk result (λ tokens. All (IsSlice text.now) tokens.items × RiseFrom 0 tokens.items) }
{
    read(alloc, text)
}

/// The next token of a text from a place on, past white space and comments; none where nothing else stands behind the place.
///
/// `barren` is the number that came with the token before, or at first the text's length. It spares the call what was looked through
/// before, so that the calls for all the tokens of a text take time by its length. `Bad` is as for `tokens`; `Memory` never comes.
pub fn next_token(text: &str, place: u64, barren: usize) -> Result<Option<Next>, TokenError>
    requires place { IsCharBoundary text.now place }
    requires barren { Barren barren (chars (drop place text.now)) }

    // The text reads from the place on as what stands behind the token, with the token in front.
    ensures found { IfOk result (AnswersNext text.now place) }
    ensures refused { IfErr result (λ e. Reads place (chars (drop place text.now)) (Err e)) }

    // The number is right for what stands behind the token.
    ensures barren { IfOk result (λ next. IfSome next (λ n. Barren n.barren (chars (drop n.token.end text.now)))) }
{
    let size = text.len();
    let mut rest = &text[place as usize..];
    'each: while let Some((first, behind)) = split_first(rest) {
        if is_white_space(first) {
            rest = behind;
        } else if first == '#' {
            rest = skip(behind, Class::InLine);
        } else if let Some((kind, after)) = longest(rest, barren) {
            let token = Token {
                kind,
                start: (size - width(rest)) as u64,
                end: (size - width(after)) as u64,
            };
            let barren = barren_behind(rest, barren);
            return Ok(Some(Next { token, barren }));
        } else {
            return Err(fault(rest, size));
        }
    }
    Ok(None)
}

fn read(alloc: Global, text: &str) -> Result<Vec<Token>, TokenError>
    ensures found { IfOk result (λ tokens. Reads 0 (chars text.now) (Ok tokens.items)) }
    ensures refused { IfErr result (λ e. UnlessMemory e (Reads 0 (chars text.now) (Err e))) }
{
    let mut tokens = Vec::new(alloc);
    let mut place = 0;
    let mut barren = text.len();
    'each: while let Some(next) = next_token(text, place, barren)? {
        tokens.push(next.token)?;
        place = next.token.end;
        barren = next.barren;
    }
    Ok(tokens)
}

/// Every type of this crate may be shared between threads and sent to them.
pub fn all_shareable() {
    shareable::<Token>();
    shareable::<TokenKind>();
    shareable::<Next>();
    shareable::<TokenError>();
    shareable::<TokenFault>();
}
