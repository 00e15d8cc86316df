//! Files in memory.
//!
//! A file is a field `name=content`; a field whose name begins with `http://` is none, but of a member. Calls that are to fail have a blank
//! between: each is a file's name, a `=`, and the number of the reading.

use fx_notation::escapes;
use fx_outside::MemoryFiles;
use std::alloc::Global;

/// Files in memory, by their contents and the calls that are to fail.
pub fn files_of(
    alloc: Global,
    failing: &str,
    contents: Vec<(String, Vec<u8>)>,
) -> Option<MemoryFiles> {
    let mut fails = Vec::new(alloc);
    for call in failing.split_whitespace() {
        let (name, number) = call.split_once('=')?;
        let name = String::from_str(alloc, name).ok()?;
        fails.push((name, number.parse::<u64>().ok()?)).ok()?;
    }
    MemoryFiles::new(alloc, contents, fails).ok()
}

/// The names and contents of files.
pub fn contents(alloc: Global, fields: &[&str]) -> Option<Vec<(String, Vec<u8>)>> {
    let mut contents = Vec::new(alloc);
    for field in fields {
        let (name, content) = field.split_once('=')?;
        if !is_address(name) {
            let name = String::from_str(alloc, name).ok()?;
            contents.push((name, escapes::bytes(alloc, content)?)).ok()?;
        }
    }
    Some(contents)
}

/// The same, and one file more of so many blanks.
pub fn with_blanks(
    alloc: Global,
    name: &str,
    count: &str,
    fields: &[&str],
) -> Option<Vec<(String, Vec<u8>)>> {
    let mut contents = contents(alloc, fields)?;
    let name = String::from_str(alloc, name).ok()?;
    let blanks = vec![in alloc; b' '; count.parse::<usize>().ok()?].ok()?;
    contents.push((name, blanks)).ok()?;
    Some(contents)
}

/// The names and contents of files, where `{long}` stands once at most in each, for so many letters.
pub fn long_contents(
    alloc: Global,
    count: &str,
    fields: &[&str],
) -> Option<Vec<(String, Vec<u8>)>> {
    let mut contents = Vec::new(alloc);
    for field in fields {
        let (name, content) = field.split_once('=')?;
        if !is_address(name) {
            let content = lengthened(alloc, content, count)?;
            contents
                .push((String::from_str(alloc, name).ok()?, content))
                .ok()?;
        }
    }
    Some(contents)
}

/// The bytes of a text in which `{long}` stands once at most, for so many letters.
pub fn lengthened(alloc: Global, content: &str, count: &str) -> Option<Vec<u8>> {
    let Some((front, back)) = content.split_once("{long}") else {
        return escapes::bytes(alloc, content);
    };
    let mut bytes = escapes::bytes(alloc, front)?;
    let mut letters = vec![in alloc; b'a'; count.parse::<usize>().ok()?].ok()?;
    let mut rest = escapes::bytes(alloc, back)?;
    bytes.append(&mut letters).ok()?;
    bytes.append(&mut rest).ok()?;
    Some(bytes)
}

/// Whether a field of this name is of a member.
pub fn is_address(name: &str) -> bool {
    name.starts_with("http://")
}
