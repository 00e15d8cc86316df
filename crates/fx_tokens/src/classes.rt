//! Classes of characters.
ghost use Rattle.std.specs.Prelude.{◌≡◌};
ghost use Rattle.fx_tokens.specs.Classes as class;

use fx_terms::blanks::{is_blank, is_line_end};
use fx_terms::escapes::letter_escape;
use fx_terms::iris::is_forbidden;
use fx_terms::names::{is_base_char, is_name_char, is_name_start};

/// A quote.
#[derive(Clone, Copy)]
pub enum QuoteMark {
    Single,
    Double,
}

impl QuoteMark {
    /// The quote's character.
    pub fn char(self) -> char
        ensures { result ≡ class.quote self }
    {
        match self {
            QuoteMark::Single => '\'',
            QuoteMark::Double => '"',
        }
    }
}

/// A class of characters of the grammar (SPARQL 1.1 section 19.8).
#[derive(Clone, Copy)]
pub enum Class {
    /// This character.
    Is(char),
    Digit,
    Letter,
    LetterOrDigit,
    /// What a keyword goes on with.
    WordChar,
    /// PN_CHARS_BASE.
    BaseChar,
    /// PN_CHARS_U or a digit.
    NameStart,
    /// What a variable's name goes on with.
    NameChar,
    /// PN_CHARS.
    PartChar,
    /// What PN_LOCAL begins with, save PLX.
    LocalStart,
    /// What PN_LOCAL goes on with, save PLX and dots.
    LocalChar,
    /// What may stand behind the backslash of PN_LOCAL_ESC.
    LocalEscape,
    HexDigit,
    VariableMark,
    Sign,
    Exponent,
    /// What may stand in an IRI.
    IriChar,
    /// What may stand behind the backslash of ECHAR.
    EscapeLetter,
    /// Not a line end.
    InLine,
    /// What a text between two of these quotes holds as it is.
    Plain(QuoteMark),
    /// What a text between three of these quotes holds as it is.
    LongPlain(QuoteMark),
    /// A mark of one character.
    OneMark,
    /// The first of a mark of two characters that ends in `=`.
    BeforeEqual,
}

impl Class {
    /// Whether the class holds a character.
    pub fn holds(self, c: char) -> bool
        ensures { result ≡ class.holds self c }
    {
        match self {
            Class::Is(a) => c == a,
            Class::Digit => is_digit(c),
            Class::Letter => is_letter(c),
            Class::LetterOrDigit => is_letter_or_digit(c),
            Class::WordChar => is_letter_or_digit(c) || c == '_',
            Class::BaseChar => is_base_char(c),
            Class::NameStart => is_name_start(c),
            Class::NameChar => is_name_char(c),
            Class::PartChar => is_part_char(c),
            Class::LocalStart => is_name_start(c) || c == ':',
            Class::LocalChar => is_part_char(c) || c == ':',
            Class::LocalEscape => is_local_escape(c),
            Class::HexDigit => c.is_ascii_hexdigit(),
            Class::VariableMark => c == '?' || c == '$',
            Class::Sign => c == '+' || c == '-',
            Class::Exponent => c == 'e' || c == 'E',
            Class::IriChar => !is_forbidden(c as u32),
            Class::EscapeLetter => letter_escape(c).is_some(),
            Class::InLine => is_in_line(c),
            Class::Plain(quote) => is_long_plain(quote.char(), c) && is_in_line(c),
            Class::LongPlain(quote) => is_long_plain(quote.char(), c),
            Class::OneMark => is_mark(c),
            Class::BeforeEqual => c == '!' || c == '<' || c == '>',
        }
    }
}

fn is_digit(c: char) -> bool
    ensures { result ≡ class.is_digit c }
{
    c.is_ascii_digit()
}

fn is_letter(c: char) -> bool
    ensures { result ≡ class.is_letter c }
{
    matches!(c, 'A'..='Z' | 'a'..='z')
}

fn is_letter_or_digit(c: char) -> bool
    ensures { result ≡ class.is_letter_or_digit c }
{
    is_letter(c) || is_digit(c)
}

fn is_part_char(c: char) -> bool
    ensures { result ≡ class.is_part_char c }
{
    is_name_char(c) || c == '-'
}

fn is_local_escape(c: char) -> bool
    ensures { result ≡ class.is_local_escape c }
{
    matches!(c, '#'..='/' | '!' | ';' | '=' | '?' | '@' | '_' | '~')
}

fn is_in_line(c: char) -> bool
    ensures { result ≡ class.is_in_line c }
{
    !is_line_end(c)
}

/// Whether a character is white space: a blank or a line end.
pub(crate) fn is_white_space(c: char) -> bool
    ensures { result ≡ class.is_white_space c }
{
    is_blank(c) || is_line_end(c)
}

fn is_long_plain(quote: char, c: char) -> bool
    ensures { result ≡ class.is_long_plain quote c }
{
    c != quote && c != '\\'
}

fn is_mark(c: char) -> bool
    ensures { result ≡ class.is_mark c }
{
    matches!(c, '('..='/' | '{' | '}' | '[' | ']' | ';' | '|' | '^' | '?' | '!' | '<'..='>')
}
