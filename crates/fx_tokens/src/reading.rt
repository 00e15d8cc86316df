//! The longest token at the front of a text, and why there is none.
ghost use Rattle.std.specs.Prelude.{◌≡◌, ◌+◌, ◌-◌, ◌<◌, ◌≤◌, ◌∷◌, length};
ghost use Rattle.std.specs.Str.{chars};
ghost use Rattle.fx_tokens.specs.Answers.{chars_left, left_kind, width};
ghost use Rattle.fx_tokens.specs.Classes.{quote as quote_char};
ghost use Rattle.fx_tokens.specs.Reads.{Faulty, BadText};
ghost use Rattle.fx_tokens.specs.Scan as scan;

use crate::classes::{Class, QuoteMark};
use crate::kinds::{
    Part, blank, decimal, integer, iri, mark, prefix_name, signed, skip_parts, string, tag,
    variable, word,
};
use crate::parts::{one, split_first, width};
use crate::{TokenError, TokenFault, TokenKind};

/// The kind of the longest token at the front, and the text behind it, where it is known that no name with a prefix begins
/// where more than `barren` bytes are left.
#[tactic(auto, unfolding(crate::specs::Scan::longest))]
pub(crate) fn longest(text: &str, barren: usize) -> Option<(TokenKind, &str)>
    requires { scan.Barren barren (chars text.now) }
    ensures { left_kind result ≡ scan.longest (chars text.now) }
{
    let best = early(text, barren);
    let best = better(best, TokenKind::Signed, signed(text));
    let best = better(best, TokenKind::Decimal, decimal(text));
    let best = better(best, TokenKind::Text, string(text));
    let best = better(best, TokenKind::Word, word(text));
    better(best, TokenKind::Mark, mark(text))
}

/// The same of the first six kinds.
#[tactic(auto, unfolding(crate::specs::Scan::early))]
fn early(text: &str, barren: usize) -> Option<(TokenKind, &str)>
    requires { scan.Barren barren (chars text.now) }
    ensures { left_kind result ≡ scan.early (chars text.now) }
{
    let best = better(None, TokenKind::Iri, iri(text));
    let best = better(best, TokenKind::PrefixName, prefix_name(text, barren));
    let best = better(best, TokenKind::Variable, variable(text));
    let best = better(best, TokenKind::Blank, blank(text));
    let best = better(best, TokenKind::Tag, tag(text));
    better(best, TokenKind::Integer, integer(text))
}

/// The one of two tokens that leaves less, the first of two that leave as much.
fn better<'a>(
    best: Option<(TokenKind, &'a str)>,
    kind: TokenKind,
    rest: Option<&'a str>,
) -> Option<(TokenKind, &'a str)>
    ensures { left_kind result ≡ scan.better (left_kind best.entry) kind (chars_left rest.entry) }
{
    match (best, rest) {
        (_, None) => best,
        (None, Some(rest)) => Some((kind, rest)),
        (Some((_, first)), Some(rest)) => {
            if width(rest) < width(first) {
                Some((kind, rest))
            } else {
                best
            }
        }
    }
}

/// Why no token stands at the front of a text that isn't empty, where everything has `size` bytes and the text is the end of it.
pub(crate) fn fault(text: &str, size: usize) -> TokenError
    requires some { 0 < length (chars text.now) }
    requires within { width (chars text.now) ≤ size }
    ensures { Faulty (size - width (chars text.now)) (chars text.now) result }
{
    let place = (size - width(text)) as u64;
    let Some((first, rest)) = split_first(text) else {
        return TokenError::Bad {
            place,
            fault: TokenFault::Character,
        };
    };
    if first == '\'' {
        return text_fault(rest, QuoteMark::Single, place, size);
    }
    if first == '"' {
        return text_fault(rest, QuoteMark::Double, place, size);
    }
    TokenError::Bad {
        place,
        fault: TokenFault::Character,
    }
}

/// Why a text between quotes has no end: `text` is what stands behind its quote, which is at `place`.
fn text_fault(text: &str, quote: QuoteMark, place: u64, size: usize) -> TokenError
    requires { place + width (quote_char quote ∷ chars text.now) ≡ size }
    ensures { BadText place (quote_char quote) (chars text.now) result }
{
    let rest = skip_parts(text, Part::Text(quote));
    match one(rest, Class::Is('\\')) {
        Some(_) => TokenError::Bad {
            place: (size - width(rest)) as u64,
            fault: TokenFault::Escape,
        },
        None => TokenError::Bad {
            place,
            fault: TokenFault::Unclosed,
        },
    }
}
