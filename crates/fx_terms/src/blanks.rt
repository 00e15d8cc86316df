//! Blanks and line ends.
ghost use Rattle.std.specs.Prelude.{◌≡◌};
ghost use Rattle.fx_terms.specs.Blanks as spec;

/// Whether a character is a blank: a space or a tab.
pub fn is_blank(c: char) -> bool
    ensures { result ≡ spec.is_blank c }
{
    c == ' ' || c == '\t'
}

/// Whether a character ends a line: a line feed or a carriage return.
pub fn is_line_end(c: char) -> bool
    ensures { result ≡ spec.is_line_end c }
{
    c == '\n' || c == '\r'
}
