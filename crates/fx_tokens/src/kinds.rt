//! The kinds of tokens. Each call gives the text behind the longest token of the kind at the front, or none where none stands
//! there.
ghost use Rattle.std.specs.Prelude.{◌≡◌};
ghost use Rattle.std.specs.Str.{chars};
ghost use Rattle.fx_tokens.specs.Answers.{chars_left};
ghost use Rattle.fx_tokens.specs.Classes as class;
ghost use Rattle.fx_tokens.specs.Scan as scan;

use crate::classes::{Class, QuoteMark};
use crate::parts::{code, longer, one, skip, some, width};

/// What is repeated within a token.
#[derive(Clone, Copy)]
pub enum Part {
    /// A character of an IRI, or one that is written by its number.
    Iri,
    /// Dots, and a character of a prefix or of a blank node's label.
    Name,
    /// Dots, and a character of a local name, or PLX.
    Local,
    /// A dash, and letters or digits.
    Tag,
    /// A character between two of these quotes, or an escape.
    Text(QuoteMark),
    /// At most two of these quotes, and a character between three of them, or an escape.
    Long(QuoteMark),
}

/// The text behind all the parts at the front.
pub(crate) fn skip_parts(text: &str, part: Part) -> &str
    ensures { chars result.now ≡ scan.skip (scan.part_of part) (chars text.now) }
{
    let mut rest = text;
    'each: while let Some(more) = one_part(rest, part) {
        rest = more;
    }
    rest
}

/// One part.
pub(crate) fn one_part(text: &str, part: Part) -> Option<&str>
    ensures { chars_left result ≡ scan.part_of part (chars text.now) }
{
    match part {
        Part::Iri => iri_part(text),
        Part::Name => name_part(text),
        Part::Local => local_part(text),
        Part::Tag => tag_part(text),
        Part::Text(quote) => text_part(text, quote),
        Part::Long(quote) => quoted(text, quote),
    }
}

#[tactic(auto, unfolding(crate::specs::Scan::iri_part))]
fn iri_part(text: &str) -> Option<&str>
    ensures { chars_left result ≡ scan.iri_part (chars text.now) }
{
    match one(text, Class::IriChar) {
        Some(rest) => Some(rest),
        None => code(one(text, Class::Is('\\'))?, true),
    }
}

#[tactic(auto, unfolding(crate::specs::Scan::name_part))]
fn name_part(text: &str) -> Option<&str>
    ensures { chars_left result ≡ scan.name_part (chars text.now) }
{
    one(skip(text, Class::Is('.')), Class::PartChar)
}

#[tactic(auto, unfolding(crate::specs::Scan::local_part))]
fn local_part(text: &str) -> Option<&str>
    ensures { chars_left result ≡ scan.local_part (chars text.now) }
{
    local_char(skip(text, Class::Is('.')))
}

#[tactic(auto, unfolding(crate::specs::Scan::local_char))]
fn local_char(text: &str) -> Option<&str>
    ensures { chars_left result ≡ scan.local_char (chars text.now) }
{
    match one(text, Class::LocalChar) {
        Some(rest) => Some(rest),
        None => local_escape(text),
    }
}

#[tactic(auto, unfolding(crate::specs::Scan::local_start))]
fn local_start(text: &str) -> Option<&str>
    ensures { chars_left result ≡ scan.local_start (chars text.now) }
{
    match one(text, Class::LocalStart) {
        Some(rest) => Some(rest),
        None => local_escape(text),
    }
}

/// PLX: `%` and two hexadecimal digits, or a backslash and a mark.
#[tactic(auto, unfolding(crate::specs::Scan::local_escape))]
fn local_escape(text: &str) -> Option<&str>
    ensures { chars_left result ≡ scan.local_escape (chars text.now) }
{
    match one(text, Class::Is('%')) {
        Some(rest) => one(one(rest, Class::HexDigit)?, Class::HexDigit),
        None => one(one(text, Class::Is('\\'))?, Class::LocalEscape),
    }
}

#[tactic(auto, unfolding(crate::specs::Scan::tag_part))]
fn tag_part(text: &str) -> Option<&str>
    ensures { chars_left result ≡ scan.tag_part (chars text.now) }
{
    some(one(text, Class::Is('-'))?, Class::LetterOrDigit)
}

#[tactic(auto, unfolding(crate::specs::Scan::text_part))]
fn text_part(text: &str, quote: QuoteMark) -> Option<&str>
    ensures { chars_left result ≡ scan.text_part (class.quote quote) (chars text.now) }
{
    match one(text, Class::Plain(quote)) {
        Some(rest) => Some(rest),
        None => escape(text),
    }
}

#[tactic(auto, unfolding(crate::specs::Scan::long_part))]
fn long_part(text: &str, quote: QuoteMark) -> Option<&str>
    ensures { chars_left result ≡ scan.long_part (class.quote quote) (chars text.now) }
{
    match one(text, Class::LongPlain(quote)) {
        Some(rest) => Some(rest),
        None => escape(text),
    }
}

/// A part behind at most two quotes.
#[tactic(auto, unfolding(crate::specs::Scan::quoted))]
fn quoted(text: &str, quote: QuoteMark) -> Option<&str>
    ensures { chars_left result ≡ scan.quoted (class.quote quote) (chars text.now) }
{
    match long_part(text, quote) {
        Some(rest) => Some(rest),
        None => quoted_once(one(text, Class::Is(quote.char()))?, quote),
    }
}

/// A part behind at most one quote.
#[tactic(auto, unfolding(crate::specs::Scan::quoted_once))]
fn quoted_once(text: &str, quote: QuoteMark) -> Option<&str>
    ensures { chars_left result ≡ scan.quoted_once (class.quote quote) (chars text.now) }
{
    match long_part(text, quote) {
        Some(rest) => Some(rest),
        None => long_part(one(text, Class::Is(quote.char()))?, quote),
    }
}

/// A backslash, and a letter or a character's number.
#[tactic(auto, unfolding(crate::specs::Scan::escape))]
fn escape(text: &str) -> Option<&str>
    ensures { chars_left result ≡ scan.escape (chars text.now) }
{
    let rest = one(text, Class::Is('\\'))?;
    match one(rest, Class::EscapeLetter) {
        Some(rest) => Some(rest),
        None => code(rest, false),
    }
}

/// IRIREF.
#[tactic(auto, unfolding(crate::specs::Scan::iri))]
pub(crate) fn iri(text: &str) -> Option<&str>
    ensures { chars_left result ≡ scan.iri (chars text.now) }
{
    let rest = one(text, Class::Is('<'))?;
    one(skip_parts(rest, Part::Iri), Class::Is('>'))
}

/// PNAME_NS or PNAME_LN, where it is known that no name with a prefix begins where more than `barren` bytes are left.
#[tactic(auto, unfolding(crate::specs::Scan::prefix_name))]
pub(crate) fn prefix_name(text: &str, barren: usize) -> Option<&str>
    requires { scan.Barren barren (chars text.now) }
    ensures { chars_left result ≡ scan.prefix_name (chars text.now) }
{
    if barren < width(text) {
        return colon_local(text);
    }
    longer(colon_local(text), long_prefix(text))
}

/// How many bytes are left behind the place up to which no name with a prefix begins, from where it is known that there are
/// `barren`. A run of characters that no colon follows is so gone over once, wherever tokens begin in it.
pub(crate) fn barren_behind(text: &str, barren: usize) -> usize
    requires { scan.Barren barren (chars text.now) }
    ensures { scan.Barren result (chars text.now) }
{
    if barren < width(text) {
        return barren;
    }
    let Some(rest) = one(text, Class::BaseChar) else {
        return barren;
    };
    let end = skip_parts(rest, Part::Name);
    match one(end, Class::Is(':')) {
        Some(_) => barren,
        None => width(end),
    }
}

/// A prefix of one character or more, and what stands behind it.
#[tactic(auto, unfolding(crate::specs::Scan::long_prefix))]
fn long_prefix(text: &str) -> Option<&str>
    ensures { chars_left result ≡ scan.long_prefix (chars text.now) }
{
    let rest = one(text, Class::BaseChar)?;
    colon_local(skip_parts(rest, Part::Name))
}

/// A colon, and PN_LOCAL or nothing.
#[tactic(auto, unfolding(crate::specs::Scan::colon_local))]
fn colon_local(text: &str) -> Option<&str>
    ensures { chars_left result ≡ scan.colon_local (chars text.now) }
{
    let rest = one(text, Class::Is(':'))?;
    match local(rest) {
        Some(behind) => Some(behind),
        None => Some(rest),
    }
}

/// PN_LOCAL.
#[tactic(auto, unfolding(crate::specs::Scan::local))]
fn local(text: &str) -> Option<&str>
    ensures { chars_left result ≡ scan.local (chars text.now) }
{
    let rest = local_start(text)?;
    Some(skip_parts(rest, Part::Local))
}

/// VAR1 or VAR2.
#[tactic(auto, unfolding(crate::specs::Scan::variable))]
pub(crate) fn variable(text: &str) -> Option<&str>
    ensures { chars_left result ≡ scan.variable (chars text.now) }
{
    let rest = one(text, Class::VariableMark)?;
    let rest = one(rest, Class::NameStart)?;
    Some(skip(rest, Class::NameChar))
}

/// BLANK_NODE_LABEL.
#[tactic(auto, unfolding(crate::specs::Scan::blank))]
pub(crate) fn blank(text: &str) -> Option<&str>
    ensures { chars_left result ≡ scan.blank (chars text.now) }
{
    let rest = one(text, Class::Is('_'))?;
    let rest = one(rest, Class::Is(':'))?;
    let rest = one(rest, Class::NameStart)?;
    Some(skip_parts(rest, Part::Name))
}

/// LANGTAG.
#[tactic(auto, unfolding(crate::specs::Scan::tag))]
pub(crate) fn tag(text: &str) -> Option<&str>
    ensures { chars_left result ≡ scan.tag (chars text.now) }
{
    let rest = one(text, Class::Is('@'))?;
    let rest = one(rest, Class::Letter)?;
    Some(skip_parts(skip(rest, Class::Letter), Part::Tag))
}

/// INTEGER.
pub(crate) fn integer(text: &str) -> Option<&str>
    ensures { chars_left result ≡ scan.integer (chars text.now) }
{
    some(text, Class::Digit)
}

/// INTEGER_POSITIVE or INTEGER_NEGATIVE.
#[tactic(auto, unfolding(crate::specs::Scan::signed))]
pub(crate) fn signed(text: &str) -> Option<&str>
    ensures { chars_left result ≡ scan.signed (chars text.now) }
{
    integer(one(text, Class::Sign)?)
}

/// A decimal or a double, with a sign or without.
#[tactic(auto, unfolding(crate::specs::Scan::decimal))]
pub(crate) fn decimal(text: &str) -> Option<&str>
    ensures { chars_left result ≡ scan.decimal (chars text.now) }
{
    match one(text, Class::Sign) {
        Some(rest) => longer(unsigned(text), unsigned(rest)),
        None => unsigned(text),
    }
}

#[tactic(auto, unfolding(crate::specs::Scan::unsigned))]
fn unsigned(text: &str) -> Option<&str>
    ensures { chars_left result ≡ scan.unsigned (chars text.now) }
{
    longer(pointed(text), powered(text))
}

/// Digits or none, a dot, digits, and maybe an exponent.
#[tactic(auto, unfolding(crate::specs::Scan::pointed))]
fn pointed(text: &str) -> Option<&str>
    ensures { chars_left result ≡ scan.pointed (chars text.now) }
{
    let rest = one(skip(text, Class::Digit), Class::Is('.'))?;
    let rest = integer(rest)?;
    match exponent(rest) {
        Some(behind) => Some(behind),
        None => Some(rest),
    }
}

/// Digits, maybe a dot, and an exponent.
#[tactic(auto, unfolding(crate::specs::Scan::powered))]
fn powered(text: &str) -> Option<&str>
    ensures { chars_left result ≡ scan.powered (chars text.now) }
{
    let rest = integer(text)?;
    longer(exponent(rest), dot_exponent(rest))
}

#[tactic(auto, unfolding(crate::specs::Scan::dot_exponent))]
fn dot_exponent(text: &str) -> Option<&str>
    ensures { chars_left result ≡ scan.dot_exponent (chars text.now) }
{
    exponent(one(text, Class::Is('.'))?)
}

/// EXPONENT.
#[tactic(auto, unfolding(crate::specs::Scan::exponent))]
fn exponent(text: &str) -> Option<&str>
    ensures { chars_left result ≡ scan.exponent (chars text.now) }
{
    let rest = one(text, Class::Exponent)?;
    longer(integer(rest), signed(rest))
}

/// A text between quotes.
#[tactic(auto, unfolding(crate::specs::Scan::string))]
pub(crate) fn string(text: &str) -> Option<&str>
    ensures { chars_left result ≡ scan.string (chars text.now) }
{
    longer(
        longer(
            short(text, QuoteMark::Single),
            short(text, QuoteMark::Double),
        ),
        longer(long(text, QuoteMark::Single), long(text, QuoteMark::Double)),
    )
}

/// A text between two quotes.
#[tactic(auto, unfolding(crate::specs::Scan::short))]
fn short(text: &str, quote: QuoteMark) -> Option<&str>
    ensures { chars_left result ≡ scan.short (class.quote quote) (chars text.now) }
{
    let rest = one(text, Class::Is(quote.char()))?;
    one(skip_parts(rest, Part::Text(quote)), Class::Is(quote.char()))
}

/// A text between three quotes each.
#[tactic(auto, unfolding(crate::specs::Scan::long))]
fn long(text: &str, quote: QuoteMark) -> Option<&str>
    ensures { chars_left result ≡ scan.long (class.quote quote) (chars text.now) }
{
    let rest = three(text, quote)?;
    three(skip_parts(rest, Part::Long(quote)), quote)
}

#[tactic(auto, unfolding(crate::specs::Scan::three))]
fn three(text: &str, quote: QuoteMark) -> Option<&str>
    ensures { chars_left result ≡ scan.three (class.quote quote) (chars text.now) }
{
    let quote = Class::Is(quote.char());
    one(one(one(text, quote)?, quote)?, quote)
}

/// A keyword.
#[tactic(auto, unfolding(crate::specs::Scan::word))]
pub(crate) fn word(text: &str) -> Option<&str>
    ensures { chars_left result ≡ scan.word (chars text.now) }
{
    let rest = one(text, Class::Letter)?;
    Some(skip(rest, Class::WordChar))
}

/// A mark.
#[tactic(auto, unfolding(crate::specs::Scan::mark))]
pub(crate) fn mark(text: &str) -> Option<&str>
    ensures { chars_left result ≡ scan.mark (chars text.now) }
{
    let single = one(text, Class::OneMark);
    let equal = pair(text, Class::BeforeEqual, '=');
    let and = pair(text, Class::Is('&'), '&');
    let or = pair(text, Class::Is('|'), '|');
    let datatype = pair(text, Class::Is('^'), '^');
    longer(single, longer(equal, longer(and, longer(or, datatype))))
}

/// A character of a class, and then this one.
#[tactic(auto, unfolding(crate::specs::Scan::pair))]
fn pair(text: &str, first: Class, second: char) -> Option<&str>
    ensures { chars_left result ≡ scan.pair (class.holds first) second (chars text.now) }
{
    one(one(text, first)?, Class::Is(second))
}
