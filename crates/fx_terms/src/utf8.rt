//! Bytes are read as UTF-8.
ghost use Rattle.std.specs.Prelude.{◌≡◌, ◌<◌, length, drop, IfOk, IfErr};
ghost use Rattle.std.specs.Str.{IsErrorLen, IsUtf8, valid_up_to, error_len};
ghost use Rattle.std.specs.Str.Lossy.{utf8_valid_len, utf8_error_len};
ghost use Rattle.fx_terms.specs.Utf8.{StopsUtf8, utf8_fault};

use std::str;
use std::str::Utf8Error;

/// The text that bytes are, or the place where they stop being UTF-8: that of the first byte such that no UTF-8 begins with the
/// bytes up to it, or the number of bytes where they end inside a character.
pub fn read_utf8(bytes: &[u8]) -> Result<&str, usize>
    // The text has these bytes.
    ensures found { IfOk result (λ text. (text.now ≡ bytes.now) × IsUtf8 bytes.now) }

    // Bytes that aren't UTF-8 are refused where they stop being it.
    ensures refused { IfErr result (StopsUtf8 bytes.now) }
{
    match str::from_utf8(bytes) {
        Ok(text) => Ok(text),
        Err(error) => Err(place(bytes, &error)),
    }
}

// Where bytes stop being UTF-8.
fn place(bytes: &[u8], error: &Utf8Error) -> usize
    requires valid { valid_up_to error.now ≡ utf8_valid_len bytes.now }
    requires within { valid_up_to error.now < length bytes.now }
    requires size { IsErrorLen bytes.now (valid_up_to error.now) (error_len error.now) }
    requires fault { error_len error.now ≡ utf8_error_len (drop (valid_up_to error.now) bytes.now) }
    ensures { result ≡ utf8_fault bytes.now }
{
    let start = error.valid_up_to();
    let Some(size) = error.error_len() else {
        return bytes.len();
    };
    let first = bytes[start];
    if first >= 0xC2 && first <= 0xF4 {
        start + size
    } else {
        start
    }
}
