//! The pieces of a tape: fixed words, numbers, and bytes of a length that was said before.
ghost use Rattle.std.specs.Prelude.{◌≡◌, ◌<◌, ◌≤◌, drop, length};
ghost use Rattle.fx_tape.specs.Pieces as spec;
ghost use Rattle.fx_tape.specs.Spellings.{Reads};

use crate::faults::Stop;
use std::alloc::Global;

/// What is behind a fixed word.
pub fn word<'a>(bytes: &'a [u8], text: &[u8]) -> Result<&'a [u8], Stop>
    ensures { Reads (λ rest. (tt, rest.now)) (spec.word text.now) bytes.now result }
{
    let mut place = 0;
    while place < text.len() {
        if place == bytes.len() || bytes[place] != text[place] {
            return Err(Stop::At(bytes.len() - place));
        }
        place += 1;
    }
    Ok(after(bytes, place))
}

/// A number of a range, in decimal without a leading zero, and what is behind the byte that ends it.
pub fn number<'a>(bytes: &'a [u8], least: u32, most: u32, end: u8) -> Result<(u32, &'a [u8]), Stop>
    requires low { least ≤ 1 }
    requires some { 1 ≤ most }
    requires short { most ≤ 67174400 }
    requires ends { end < 48 }
    ensures { Reads (λ x. (x.0, x.1.now)) (spec.number least most end) bytes.now result }
{
    let mut value: u32 = 0;
    let mut place = 0;
    while place < bytes.len() && goes_on(least, most, place == 0, value, bytes[place]) {
        value = value * 10 + (bytes[place] - b'0') as u32;
        place += 1;
    }
    if place == 0 || place == bytes.len() || bytes[place] != end {
        return Err(Stop::At(bytes.len() - place));
    }
    Ok((value, after(bytes, place + 1)))
}

// The byte is a further digit of a number of the range, of which the digits so far have a value.
fn goes_on(least: u32, most: u32, is_first: bool, value: u32, b: u8) -> bool
    requires short { most ≤ 67174400 }
    requires within { value ≤ most }
    ensures { result ≡ spec.goes_on least most is_first value b }
{
    if !b.is_ascii_digit() {
        return false;
    }
    let digit = (b - b'0') as u32;
    if is_first {
        least <= digit && digit <= most
    } else {
        value != 0 && value * 10 + digit <= most
    }
}

/// So many bytes, copied, and what is behind the LF that ends them.
pub fn block<'a>(alloc: Global, bytes: &'a [u8], size: u32) -> Result<(Vec<u8>, &'a [u8]), Stop>
    ensures { Reads (λ x. (x.0.items, x.1.now)) (spec.block size) bytes.now result }
{
    let size = size as usize;
    if bytes.len() <= size {
        return Err(Stop::At(0));
    }
    if bytes[size] != b'\n' {
        return Err(Stop::At(bytes.len() - size));
    }
    let copy = Vec::from_slice(alloc, &bytes[..size])?;
    Ok((copy, after(bytes, size + 1)))
}

/// What is behind so many bytes.
pub fn after(bytes: &[u8], start: usize) -> &[u8]
    requires { start ≤ length bytes.now }
    ensures { result.now ≡ drop start bytes.now }
{
    &bytes[start..]
}
