//! The parts that tokens are made of. Each call gives the text behind the longest part at the front, or none where none
//! stands there.
ghost use Rattle.std.specs.Prelude.{◌≡◌, ◌∷◌, ◌<◌, ◌+◌, ◌*◌, ◌^◌, [], MatchOption, IfSome};
ghost use Rattle.std.specs.Str.{chars};
ghost use Rattle.fx_tokens.specs.Answers.{chars_left, left_number, width};
ghost use Rattle.fx_tokens.specs.Classes.{holds};
ghost use Rattle.fx_tokens.specs.Scan as scan;

use crate::classes::Class;
use fx_terms::escapes::digit_value;

/// The first character, and the text behind it.
pub(crate) fn split_first(text: &str) -> Option<(char, &str)>
    ensures { MatchOption result (chars text.now ≡ []) (λ p. chars text.now ≡ p.0 ∷ chars p.1.now) }
{
    let mut chars = text.chars();
    let first = chars.next()?;
    Some((first, chars.as_str()))
}

/// One character of a class.
#[tactic(auto, unfolding(crate::specs::Scan::one))]
pub(crate) fn one(text: &str, class: Class) -> Option<&str>
    ensures { chars_left result ≡ scan.one (holds class) (chars text.now) }
{
    let (first, rest) = split_first(text)?;
    if class.holds(first) { Some(rest) } else { None }
}

/// The text behind all the characters of a class at the front.
pub(crate) fn skip(text: &str, class: Class) -> &str
    ensures { chars result.now ≡ scan.skip (scan.one (holds class)) (chars text.now) }
{
    let mut rest = text;
    'each: while let Some(more) = one(rest, class) {
        rest = more;
    }
    rest
}

/// One or more characters of a class.
pub(crate) fn some(text: &str, class: Class) -> Option<&str>
    ensures { chars_left result ≡ scan.some (holds class) (chars text.now) }
{
    let rest = one(text, class)?;
    Some(skip(rest, class))
}

/// The one of two texts that leaves less, the first of two that leave as much.
pub(crate) fn longer<'a>(rest: Option<&'a str>, other: Option<&'a str>) -> Option<&'a str>
    ensures { chars_left result ≡ scan.longer (chars_left rest.entry) (chars_left other.entry) }
{
    match (rest, other) {
        (None, _) => other,
        (Some(_), None) => rest,
        (Some(first), Some(second)) => {
            if width(second) < width(first) {
                other
            } else {
                rest
            }
        }
    }
}

/// How many bytes a text has.
pub(crate) fn width(text: &str) -> usize
    ensures { result ≡ width (chars text.now) }
{
    text.len()
}

/// A text that `\uXXXX` or `\UXXXXXXXX` writes, behind its backslash: one that an IRI may hold, where it stands in one.
#[tactic(auto, unfolding(crate::specs::Scan::code))]
pub(crate) fn code(text: &str, in_iri: bool) -> Option<&str>
    ensures { chars_left result ≡ scan.code (scan.fits in_iri) (chars text.now) }
{
    match one(text, Class::Is('u')) {
        Some(rest) => short_code(rest, in_iri),
        None => long_code(one(text, Class::Is('U'))?, in_iri),
    }
}

/// Four hexadecimal digits that name a character.
#[tactic(auto, unfolding(crate::specs::Scan::short_code))]
fn short_code(text: &str, in_iri: bool) -> Option<&str>
    ensures { chars_left result ≡ scan.short_code (scan.fits in_iri) (chars text.now) }
{
    let (number, rest) = four(text, 0)?;
    if fits(number, in_iri) {
        Some(rest)
    } else {
        None
    }
}

/// Eight hexadecimal digits that name a character.
#[tactic(auto, unfolding(crate::specs::Scan::long_code))]
fn long_code(text: &str, in_iri: bool) -> Option<&str>
    ensures { chars_left result ≡ scan.long_code (scan.fits in_iri) (chars text.now) }
{
    let (high, rest) = four(text, 0)?;
    let (number, rest) = four(rest, high)?;
    if fits(number, in_iri) {
        Some(rest)
    } else {
        None
    }
}

/// Whether a number is that of a character, and in an IRI of one that an IRI may hold.
fn fits(number: u32, in_iri: bool) -> bool
    ensures { result ≡ scan.fits in_iri number }
{
    match char::from_u32(number) {
        Some(c) => !in_iri || Class::IriChar.holds(c),
        None => false,
    }
}

/// The number of four hexadecimal digits behind a higher part, and the text behind them.
#[tactic(auto, unfolding(crate::specs::Scan::hexes))]
pub(crate) fn four(text: &str, high: u32) -> Option<(u32, &str)>
    requires { high < 65536 }
    ensures value { left_number result ≡ scan.hexes 4 high (chars text.now) }
    ensures bound { high ≡ 0 → IfSome result (λ p. p.0 < 65536) }
{
    let (high, rest) = digit(text, high)?;
    let (high, rest) = digit(rest, high)?;
    let (high, rest) = digit(rest, high)?;
    digit(rest, high)
}

/// The number with one more hexadecimal digit.
#[tactic(auto, unfolding(crate::specs::Scan::digit))]
fn digit(text: &str, high: u32) -> Option<(u32, &str)>
    requires { high < 2 ^ 28 }
    ensures value { left_number result ≡ scan.digit high (chars text.now) }
    ensures bound { IfSome result (λ p. p.0 < high * 16 + 16) }
{
    let (first, rest) = split_first(text)?;
    if Class::HexDigit.holds(first) {
        Some((high * 16 + digit_value(first), rest))
    } else {
        None
    }
}
