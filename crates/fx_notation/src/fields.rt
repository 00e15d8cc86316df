//! What stands in a field that is no term: numbers and words, parted by blanks, and repetitions.

use std::alloc::Global;
use std::fmt::Write;
use std::str::from_utf8;

/// Numbers.
pub fn numbers(alloc: Global, field: &str) -> Option<Vec<u64>> {
    let mut numbers = Vec::new(alloc);
    for word in field.split_whitespace() {
        numbers.push(word.parse::<u64>().ok()?).ok()?;
    }
    Some(numbers)
}

/// Pairs of numbers: `2:1 3:4`.
pub fn number_pairs(alloc: Global, field: &str) -> Option<Vec<(u64, u64)>> {
    let mut pairs = Vec::new(alloc);
    for word in field.split_whitespace() {
        pairs.push(number_pair(word)?).ok()?;
    }
    Some(pairs)
}

fn number_pair(word: &str) -> Option<(u64, u64)> {
    let (first, second) = word.split_once(':')?;
    Some((first.parse::<u64>().ok()?, second.parse::<u64>().ok()?))
}

/// The text of a word, where `""` is the empty text.
pub fn unquoted(word: &str) -> &str {
    if word == "\"\"" { "" } else { word }
}

/// A text as many times as a number says.
pub fn repeated(alloc: Global, piece: &str, times: &str) -> Option<String> {
    piece.repeat(alloc, times.parse::<usize>().ok()?).ok()
}

/// Adds an entry to a list that is parted by commas.
pub fn add(list: &mut String, entry: &str) -> Option<()> {
    add_behind(list, ", ", entry)
}

/// Adds an entry to a list whose entries have this text between.
pub fn add_behind(list: &mut String, between: &str, entry: &str) -> Option<()> {
    let between = if list.is_empty() { "" } else { between };
    write!(list, "{between}{entry}").ok()
}

/// What stands behind the head of a request or a reply.
pub fn body(message: &[u8]) -> Option<&str> {
    let (_, body) = from_utf8(message).ok()?.split_once("\r\n\r\n")?;
    Some(body)
}
