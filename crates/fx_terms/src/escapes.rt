//! What stands behind the backslash of an escape, in N-Triples and in SPARQL.
ghost use Rattle.std.specs.Prelude.{◌≡◌, ◌<◌, true};
ghost use Rattle.std.specs.Char.{digit_value, is_ascii_hexdigit};
ghost use Rattle.fx_terms.specs.Escapes as spec;

/// The character that a letter behind a backslash names.
pub fn letter_escape(letter: char) -> Option<char>
    ensures { result ≡ spec.letter_escape letter }
{
    match letter {
        't' => Some('\t'),
        'b' => Some('\x08'),
        'n' => Some('\n'),
        'r' => Some('\r'),
        'f' => Some('\x0c'),
        '"' => Some('"'),
        '\'' => Some('\''),
        '\\' => Some('\\'),
        _ => None,
    }
}

/// The value of a hexadecimal digit.
pub fn digit_value(digit: char) -> u32
    requires { is_ascii_hexdigit digit ≡ true }
    ensures value { result ≡ digit_value digit }
    ensures small { result < 16 }
{
    let code = digit as u32;
    if digit <= '9' {
        code - 48
    } else if digit <= 'F' {
        code - 55
    } else {
        code - 87
    }
}
