//! The texts that fields of a table stand for. In a field `\t`, `\n`, `\r` and `\\` stand for a tab, for the characters that end a line, and
//! for a backslash, and `\x` with two hexadecimal digits for a byte.

use std::alloc::Global;

/// A text as it stands in a field.
pub fn field_of(alloc: Global, text: &str) -> Option<String> {
    let mut field = String::new(alloc);
    for character in text.chars() {
        push_character(&mut field, character)?;
    }
    Some(field)
}

fn push_character(field: &mut String, character: char) -> Option<()> {
    match escape_of(character) {
        Some(escape) => field.push_str(escape).ok(),
        None => field.push(character).ok(),
    }
}

fn escape_of(character: char) -> Option<&'static str> {
    match character {
        '\t' => Some("\\t"),
        '\n' => Some("\\n"),
        '\r' => Some("\\r"),
        '\\' => Some("\\\\"),
        _ => None,
    }
}

/// The text that a field stands for. Gives nothing where its bytes aren't UTF-8, or it has an escape of another form.
pub fn text(alloc: Global, field: &str) -> Option<String> {
    String::from_utf8(bytes(alloc, field)?).ok()
}

// Where the reading of a field stands.
#[derive(Clone, Copy)]
enum State {
    Plain,
    Escape,
    // Behind `\x`.
    High,
    // Behind the first digit.
    Low(u8),
}

/// The bytes that a field stands for. Gives nothing where it has an escape of another form.
pub fn bytes(alloc: Global, field: &str) -> Option<Vec<u8>> {
    let mut bytes = Vec::new(alloc);
    let mut state = State::Plain;
    for byte in field.bytes() {
        state = step(&mut bytes, state, byte)?;
    }
    match state {
        State::Plain => Some(bytes),
        _ => None,
    }
}

fn step(bytes: &mut Vec<u8>, state: State, byte: u8) -> Option<State> {
    match state {
        State::Plain => {
            if byte == b'\\' {
                return Some(State::Escape);
            }
            bytes.push(byte).ok()?;
            Some(State::Plain)
        }
        State::Escape => {
            if byte == b'x' {
                return Some(State::High);
            }
            bytes.push(escaped(byte)?).ok()?;
            Some(State::Plain)
        }
        State::High => Some(State::Low(digit(byte)?)),
        State::Low(high) => {
            bytes
                .push(high.wrapping_mul(16).wrapping_add(digit(byte)?))
                .ok()?;
            Some(State::Plain)
        }
    }
}

fn escaped(byte: u8) -> Option<u8> {
    match byte {
        b't' => Some(b'\t'),
        b'n' => Some(b'\n'),
        b'r' => Some(b'\r'),
        b'\\' => Some(b'\\'),
        _ => None,
    }
}

fn digit(byte: u8) -> Option<u8> {
    match byte {
        b'0'..=b'9' => Some(byte - b'0'),
        b'a'..=b'f' => Some(byte - b'a' + 10),
        b'A'..=b'F' => Some(byte - b'A' + 10),
        _ => None,
    }
}
