//! Documents are read.
ghost use Rattle.std.specs.Prelude.{◌≡◌, ℕ, Err, ◌≤◌, ◌+◌, length, drop, List, IfOk, MatchResult, Some};
ghost use Rattle.std.specs.List.{slice_split, position_or_len};
ghost use Rattle.std.specs.Str.{IsUtf8};
ghost use Rattle.fx_terms.specs.Utf8.{StopsUtf8};
ghost use Rattle.fx_terms.specs.declared.triples.Triple.{Triple as TripleParts};
ghost use Rattle.fx_ntriples.specs.Reading as spec;
ghost use Rattle.fx_ntriples.specs.Places as places;
ghost use Rattle.fx_ntriples.specs.Forms.{IsDocument};
ghost use Rattle.fx_ntriples.specs.Refusals.{StandsAt, BadStands, BlankStands, RelativeStands};
ghost use Rattle.fx_ntriples.specs.Answers.{Answers, AnswersLines, Pushes, stopped_at};

use crate::faults::{Fault, NtError, Stop};
use crate::lines::line;
use fx_terms::blanks::is_line_end;
use fx_terms::{Graph, Memory, RecentIris, Triple, read_utf8};
use std::alloc::Global;

/// The graph that an N-Triples document is (RDF 1.1 N-Triples, section 7), in this project's profile: IRIs are absolute, there
/// are no blank nodes, tags are kept in lower case, and blanks may stand on both sides of `^^`.
///
/// `BadUtf8` comes exactly where the bytes are not UTF-8. Each other error but `Memory` comes exactly where `NtError` says:
/// the first that is met from the front on. A line ends with CR, LF or both together.
pub fn read_graph(alloc: Global, bytes: &[u8]) -> Result<Graph, NtError>
    // The one answer, with the place of a refusal, unless memory ran out.
    ensures answer { Answers result (spec.read_document bytes.now) }

    // What is read is a document by the forms, and this is its graph.
    ensures found { IfOk result (IsDocument bytes.now) }

    // A document by the forms is read, as its graph and no other.
    ensures only { (graph : List TripleParts) → IsDocument bytes.now graph → MatchResult result (λ g. g ≡ graph) (λ e. e ≡ NtError.Memory) }

    // Bytes that aren't UTF-8 are refused where they stop being it.
    ensures bad_utf8 { (n : ℕ) → result ≡ Err (NtError.BadUtf8 n) → StopsUtf8 bytes.now n }
    ensures bad_utf8_only { (n : ℕ) → StopsUtf8 bytes.now n → Answers result (Err (NtError.BadUtf8 n)) }

    // What stands at the place of any other refusal, and before it.
    ensures bad { (l c : ℕ) → result ≡ Err (NtError.Bad l c) → StandsAt BadStands bytes.now l c }
    ensures blank { (l c : ℕ) → result ≡ Err (NtError.Blank l c) → StandsAt BlankStands bytes.now l c }
    ensures relative { (l c : ℕ) → result ≡ Err (NtError.Relative l c) → StandsAt RelativeStands bytes.now l c }

    // Where that stands in UTF-8, this is the refusal.
    ensures bad_only { IsUtf8 bytes.now → (l c : ℕ) → StandsAt BadStands bytes.now l c → Answers result (Err (NtError.Bad l c)) }
    ensures blank_only { IsUtf8 bytes.now → (l c : ℕ) → StandsAt BlankStands bytes.now l c → Answers result (Err (NtError.Blank l c)) }
    ensures relative_only { IsUtf8 bytes.now → (l c : ℕ) → StandsAt RelativeStands bytes.now l c → Answers result (Err (NtError.Relative l c)) }
{
    read(alloc, bytes)
}

fn read(alloc: Global, bytes: &[u8]) -> Result<Graph, NtError>
    ensures { Answers result (spec.read_document bytes.now) }
{
    match read_utf8(bytes) {
        Ok(text) => graph(alloc, text),
        Err(place) => {
            Err(NtError::BadUtf8 {
                place: place as u64,
            })
        }
    }
}

fn graph(alloc: Global, text: &str) -> Result<Graph, NtError>
    ensures { Answers result (spec.answered text.now (spec.read_lines 0 (slice_split spec.is_line_end text.now))) }
{
    let Ok(mut recent) = RecentIris::of_document(alloc, text.len()) else {
        return Err(NtError::Memory);
    };
    match triples(alloc, text, &mut recent) {
        Ok(triples) => {
            match Graph::of(triples) {
                Ok(graph) => Ok(graph),
                Err(Memory) => Err(NtError::Memory),
            }
        }
        Err(
            Halt::At {
                fault,
                start,
                place,
            },
        ) => Err(at_place(text.as_bytes(), fault, start, place)),
        Err(Halt::Memory) => Err(NtError::Memory),
    }
}

/// Why the reading of lines stops.
#[derive(Clone, Copy)]
pub enum Halt {
    /// A fault, so many bytes behind the place where its line begins.
    At {
        fault: Fault,
        start: usize,
        place: usize,
    },
    /// Memory ran out.
    Memory,
}

// The triples of all lines.
fn triples(alloc: Global, text: &str, recent: &mut RecentIris) -> Result<Vec<Triple>, Halt>
    ensures { AnswersLines text.now result (spec.read_lines 0 (slice_split spec.is_line_end text.now)) }
{
    let bytes = text.as_bytes();
    let mut triples = Vec::new(alloc);
    let mut start = 0;
    'lines: loop {
        let end = line_end(bytes, start);
        if let Err(stop) = push_line(alloc, &text[start..end], recent, &mut triples) {
            return Err(stopped(stop, start));
        }
        if end == bytes.len() {
            return Ok(triples);
        }
        start = end + 1;
    }
}

fn stopped(stop: Stop, start: usize) -> Halt
    ensures { result ≡ stopped_at stop start }
{
    match stop {
        Stop::At(fault, place) => Halt::At {
            fault,
            start,
            place,
        },
        Stop::Memory => Halt::Memory,
    }
}

// What a line says, pushed.
fn push_line(
    alloc: Global,
    text: &str,
    recent: &mut RecentIris,
    triples: &mut Vec<Triple>,
) -> Result<(), Stop>
    ensures { Pushes text.now result triples.old.items triples.new.items (spec.line text.now) }
{
    let (said, _) = line(alloc, text, recent)?;
    if let Some(triple) = said {
        triples.push(triple)?;
    }
    Ok(())
}

// Where the line that begins at a place ends.
fn line_end(bytes: &[u8], start: usize) -> usize
    requires { start ≤ length bytes.now }
    ensures place { result ≡ start + position_or_len spec.is_line_end (drop start bytes.now) }
    ensures within { result ≤ length bytes.now }
{
    let mut end = start;
    while end < bytes.len() && !is_line_end(bytes[end] as char) {
        end += 1;
    }
    end
}

fn at_place(bytes: &[u8], fault: Fault, start: usize, place: usize) -> NtError
    requires inside { start ≤ length bytes.now }
    requires within { place ≤ length (drop start bytes.now) }
    ensures { result ≡ places.at_place bytes.now fault start place }
{
    let line = count_line_ends(&bytes[..start]) + 1;
    let column = count_chars(&bytes[start..start + place]) + 1;
    match fault {
        Fault::Bad => NtError::Bad { line, column },
        Fault::Blank => NtError::Blank { line, column },
        Fault::Relative => NtError::Relative { line, column },
    }
}

// How many line ends there are: CR, LF, or both together.
fn count_line_ends(bytes: &[u8]) -> u64
    ensures count { result ≡ places.line_ends bytes.now }
    ensures few { result ≤ length bytes.now }
{
    let mut count = 0;
    for (i, b) in bytes.iter().enumerate() {
        if *b == b'\n' || (*b == b'\r' && !(i + 1 < bytes.len() && bytes[i + 1] == b'\n')) {
            count += 1;
        }
    }
    count
}

// How many characters begin.
fn count_chars(bytes: &[u8]) -> u64
    ensures count { result ≡ places.char_count bytes.now }
    ensures few { result ≤ length bytes.now }
{
    bytes.iter().filter(|b| is_char_start(**b)).count() as u64
}

fn is_char_start(b: u8) -> bool
    ensures { result ≡ places.is_char_start b }
{
    b < 0x80 || b >= 0xC0
}
