//! Heads of requests, as they are read.
ghost use Rattle.std.specs.Prelude.{◌≡◌, ◌≢◌, ◌≤◌, ◌++◌, ◌&&◌, ◌||◌, length, IsTrue, IfOk, IfErr, OnErr};
ghost use Rattle.fx_outside.specs.Faults.{HasRisen};
ghost use Rattle.fx_http.specs.Answers.{IsRestWithin};
ghost use Rattle.fx_http.specs.Requests.{TakesOfHead};
ghost use Rattle.fx_http.specs.RequestHeads.{IsHeadless, IsLooked, IsRequestSpans, IsWholeHead, ends_in_empty_line, is_of_line};

use crate::heads::{LONGEST_HEAD, MOST_FIELDS};
use crate::read_requests::RequestError;
use crate::reading::read_byte;
use fx_outside::Source;
use fx_terms::blanks::is_line_end;
use httparse::Status;
use httparse::spans::{EMPTY_HEADER_SPAN, HeaderSpan, RequestSpans, parse_request};
use std::alloc::Global;

// What is known of the bytes that a head may end with.
enum Looked {
    Head,
    Open,
    Never,
}

// The head that the source begins with, and no byte behind it.
pub fn read_head<S: Source>(alloc: Global, source: &mut S) -> Result<Vec<u8>, RequestError>
    ensures head { IfOk result (λ front. IsWholeHead front.items) }
    ensures taken { IsTrue S.tells_left → IfOk result (λ front. S.left source.old ≡ front.items ++ S.left source.new) }
    ensures refused { IsTrue S.tells_left → IfErr result (IsHeadless (S.left source.old)) }
    ensures rest { IsTrue S.tells_left → IsRestWithin 65536 (S.left source.old) (S.left source.new) }
    ensures stopped { IsTrue S.tells_left → OnErr result (TakesOfHead (S.left source.old) (S.left source.new)) }
    ensures kept { S.read_faults source.old ≤ S.read_faults source.new }
    ensures failed { result ≡ Err RequestError.Fault → HasRisen (S.read_faults source.old) (S.read_faults source.new) }
    ensures faultless { result ≢ Err RequestError.Fault → S.read_faults source.new ≡ S.read_faults source.old }
    ensures held { IsTrue S.tells_held → S.held source.new ≡ S.held source.old }
    ensures writes { S.write_faults source.new ≡ S.write_faults source.old }
{
    let mut bytes = Vec::new(alloc);
    let mut begun = false;
    while bytes.len() < LONGEST_HEAD {
        let Some(byte) = read_byte(source)? else {
            return Err(RequestError::Malformed);
        };
        bytes.extend_from_slice(&[byte])?;
        begun = has_begun(begun, byte);
        if may_end(begun, &bytes) {
            match look(&bytes) {
                Looked::Head => return Ok(bytes),
                Looked::Open => {}
                Looked::Never => return Err(RequestError::Malformed),
            }
        }
    }
    Err(RequestError::Malformed)
}

// Whether a byte has come that is of a line and not of its end, with one byte more.
fn has_begun(begun: bool, b: u8) -> bool
    ensures { result ≡ (begun || is_of_line b) }
{
    begun || !is_line_end(b as char)
}

// Whether a head may end here: only behind a line, in an empty one.
fn may_end(begun: bool, bytes: &[u8]) -> bool
    ensures { result ≡ (begun && ends_in_empty_line bytes.now) }
{
    begun && (bytes.ends_with(b"\n\n") || bytes.ends_with(b"\n\r\n"))
}

// Whether the bytes begin with a head of at most 100 fields, may come to do so, or never will.
fn look(bytes: &[u8]) -> Looked
    ensures { IsLooked bytes.now result }
{
    let mut headers = [EMPTY_HEADER_SPAN; MOST_FIELDS];
    match parse_request(bytes, &mut headers) {
        Ok(Status::Complete(_)) => Looked::Head,
        Ok(Status::Partial) => Looked::Open,
        Err(_) => Looked::Never,
    }
}

// Where the parts of a head are.
pub fn read_spans(front: &[u8], headers: &mut [HeaderSpan]) -> RequestSpans
    requires whole { IsWholeHead front.now }
    requires room { 100 ≤ length headers.old }
    ensures { IsRequestSpans front.now headers.new result }
{
    match parse_request(front, headers) {
        Ok(Status::Complete(head)) => head,
        Ok(Status::Partial) => unreachable!(),
        Err(_) => unreachable!(),
    }
}
