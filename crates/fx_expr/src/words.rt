//! Tests on texts.
ghost use Rattle.std.specs.Prelude.{◌≡◌, length, option_map};
ghost use Rattle.std.specs.Str.{chars};
ghost use Rattle.fx_algebra.specs.Words as spec;

use crate::worths::kind_of;
use fx_algebra::Kind;
use fx_terms::{Literal, Term};

fn is_string(literal: &Literal) -> bool
    ensures { result ≡ spec.is_string literal.now }
{
    match kind_of(literal.datatype()) {
        Kind::Text => true,
        Kind::Tagged => false,
        Kind::Integer(_) => false,
        Kind::Boolean => false,
        Kind::Other => false,
    }
}

fn is_worded(literal: &Literal) -> bool
    ensures { result ≡ spec.is_worded literal.now }
{
    match kind_of(literal.datatype()) {
        Kind::Text => true,
        Kind::Tagged => true,
        Kind::Integer(_) => false,
        Kind::Boolean => false,
        Kind::Other => false,
    }
}

// Whether both are strings or tagged, and the second is a string or both have the same tag.
fn fit(left: &Literal, right: &Literal) -> bool
    ensures { result ≡ spec.fit left.now right.now }
{
    is_worded(left) && is_worded(right) && (is_string(right) || left.tag() == right.tag())
}

/// The forms of two terms that fit.
#[tactic(auto, unfolding(fx_algebra::specs::Words::forms))]
pub(crate) fn forms<'a>(left: &'a Term, right: &'a Term) -> Option<(&'a str, &'a str)>
    ensures { option_map (λ f. (f.0.now, f.1.now)) result ≡ spec.forms left.now right.now }
{
    match left {
        Term::Iri(_) => None,
        Term::Literal(a) => match right {
            Term::Iri(_) => None,
            Term::Literal(b) => {
                if fit(a, b) {
                    Some((a.form(), b.form()))
                } else {
                    None
                }
            }
        },
    }
}

/// The form of a string.
#[tactic(auto, unfolding(fx_algebra::specs::Words::string_form))]
pub(crate) fn string_form(term: &Term) -> Option<&str>
    ensures { option_map (λ f. f.now) result ≡ spec.string_form term.now }
{
    match term {
        Term::Iri(_) => None,
        Term::Literal(literal) => {
            if is_string(literal) {
                Some(literal.form())
            } else {
                None
            }
        }
    }
}

/// The form of a string or of a literal with a language tag.
#[tactic(auto, unfolding(fx_algebra::specs::Words::worded_form))]
pub(crate) fn worded_form(term: &Term) -> Option<&str>
    ensures { option_map (λ f. f.now) result ≡ spec.worded_form term.now }
{
    match term {
        Term::Iri(_) => None,
        Term::Literal(literal) => {
            if is_worded(literal) {
                Some(literal.form())
            } else {
                None
            }
        }
    }
}

/// How many characters a text has.
pub(crate) fn count_characters(text: &str) -> usize
    ensures { result ≡ length (chars text.now) }
{
    text.chars().count()
}

/// Whether a text begins with a part.
pub(crate) fn begins(text: &str, part: &str) -> bool
    ensures { result ≡ spec.begins text.now part.now }
{
    text.starts_with(part)
}

/// Whether a text ends with a part.
pub(crate) fn ends(text: &str, part: &str) -> bool
    ensures { result ≡ spec.ends text.now part.now }
{
    text.ends_with(part)
}

/// Whether a part stands in a text.
pub(crate) fn has_part(text: &str, part: &str) -> bool
    ensures { result ≡ spec.has_part text.now part.now }
{
    text.contains(part)
}

/// Whether a range matches a language tag (RFC 4647 section 3.3.1); `*` matches every tag.
#[tactic(auto, unfolding(fx_algebra::specs::Words::in_language))]
pub(crate) fn in_language(tag: &str, range: &str) -> bool
    ensures { result ≡ spec.in_language tag.now range.now }
{
    if range == "*" {
        return !tag.is_empty();
    }
    is_within(tag.as_bytes(), range.as_bytes())
}

// Whether a tag is the range, or begins with it and a dash, whatever the case.
fn is_within(tag: &[u8], range: &[u8]) -> bool
    ensures { result ≡ spec.is_within tag.now range.now }
{
    if tag.len() < range.len() {
        return false;
    }
    let (front, rest) = tag.split_at(range.len());
    front.eq_ignore_ascii_case(range) && ends_or_goes_on(rest)
}

fn ends_or_goes_on(rest: &[u8]) -> bool
    ensures { result ≡ spec.ends_or_goes_on rest.now }
{
    match rest {
        [] => true,
        [first, ..] => *first == b'-',
    }
}
