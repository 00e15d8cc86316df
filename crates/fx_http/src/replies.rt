//! Replies of endpoints.
ghost use Rattle.std.specs.Prelude.{codes, ◌≡◌, ◌<◌, ℕ, List, All, Result as Answer, length, map, IfSome, IfNone, true};
ghost use Rattle.std.specs.List.{list_all};
ghost use Rattle.httparse.specs.Grammar.{ResponseHead, ReadsResponse};
ghost use Rattle.httparse.specs.Spans.{IsHeaderWithin, header_bytes};
ghost use Rattle.fx_http.specs.Answers.{Gives, IsOrMemory};
ghost use Rattle.fx_http.specs.Fields as field;
ghost use Rattle.fx_http.specs.Heads.{FollowsHead, IsHeadOf};
ghost use Rattle.fx_http.specs.Replies as reply;
ghost use Rattle.fx_http.specs.Requests as request;

use crate::chunks::joined;
use crate::fields::{is_missing, is_number, is_same, media_type, number, only_value};
use crate::heads::{LONGEST_HEAD, MOST_FIELDS};
use crate::slices::{after, front};
use httparse::Status;
use httparse::spans::{EMPTY_HEADER_SPAN, HeaderSpan, ResponseSpans, parse_response};
use std::alloc::{AllocError, Global};
use std::marker::Model;

const LONGEST_REPLY: usize = 67_108_864;

/// Why bytes are no reply with results: the first of these rules that they break.
#[derive(Clone, Copy, Debug, PartialEq, Eq)]
pub enum ReplyError {
    /// There are more than 67,108,864 bytes.
    TooLong,
    /// The first 65,536 bytes hold no head (RFC 9112, 4 and 5, as `httparse` reads it by its default rules), or one of more
    /// than 100 fields.
    Head,
    /// The status code isn't 200.
    Status { code: u16 },
    /// A Content-Encoding other than `identity`, or a Transfer-Encoding other than one field `chunked`.
    Coding,
    /// There isn't one Content-Type, or its media type is neither `application/sparql-results+json` nor
    /// `application/json`.
    ContentType,
    /// Content-Length stands beside Transfer-Encoding, or twice, or isn't 1 to 19 digits, or isn't the number of the bytes
    /// after the head (RFC 9112, 6.3).
    Length,
    /// The body isn't whole chunks, each a size line, so many bytes and CR LF, then a chunk of size 0, at most 100 trailer
    /// fields with their empty line, and nothing more (RFC 9112, 7.1).
    Chunk,
    /// Memory ran out.
    Memory,
}

impl From<AllocError> for ReplyError {
    ghost use Rattle.std.specs.Prelude.{◌≡◌};
    ghost use Rattle.fx_http.specs.declared.replies.ReplyError.TheVariants.{Memory};

    ghost from_gives = { λ _ e. e ≡ Memory };

    fn from(_error: AllocError) -> ReplyError {
        ReplyError::Memory
    }
}

/// The body of a reply with results. Contracts see its bytes.
#[derive(Drop)]
pub struct Reply {
    body: Vec<u8>,
}

impl Model for Reply {
    ghost use Rattle.std.specs.Prelude.{List, ℕ};

    ghost Value = { List ℕ };

    ghost view = { λ r. r.body.items };
}

impl Reply {
    /// The body.
    pub fn body(&self) -> &[u8]
        ensures { result.now ≡ self.now }
    {
        self.body.as_slice()
    }

    /// The body, taken out.
    pub fn into_body(self) -> Vec<u8>
        ensures { result.items ≡ self }
    {
        self.body
    }
}

/// The reply that the bytes of a closed connection are: status 200, a document of results in JSON, its body as it is or in
/// chunks (SPARQL 1.1 Protocol, 2.1.5; RFC 9112, 6 and 7).
///
/// Each error comes exactly where `ReplyError` says, and none of those before it does.
pub fn read_reply(alloc: Global, bytes: &[u8]) -> Result<Reply, ReplyError>
    ensures found { Gives result (reply.Replies bytes.now) }

    // Bytes answer nothing else.
    ensures only { (answer : Answer (List ℕ) ReplyError) → reply.Replies bytes.now answer → IsOrMemory result answer }
{
    read(alloc, bytes)
}

fn read(alloc: Global, bytes: &[u8]) -> Result<Reply, ReplyError>
    ensures { Gives result (reply.Replies bytes.now) }
{
    if bytes.len() > LONGEST_REPLY {
        return Err(ReplyError::TooLong);
    }
    let front = front(bytes, LONGEST_HEAD);
    let mut headers = [EMPTY_HEADER_SPAN; MOST_FIELDS];
    let Some(head) = read_head(front, &mut headers) else {
        return Err(ReplyError::Head);
    };
    read_behind(
        alloc,
        front,
        &headers[..head.headers],
        head.code,
        after(bytes, head.len),
    )
}

// The head that the bytes begin with, where it has no more fields than there are headers to write to.
fn read_head(front: &[u8], headers: &mut [HeaderSpan]) -> Option<ResponseSpans>
    ensures same { length headers.new ≡ length headers.old }
    ensures some { IfSome result (IsHeadOf front.now headers.new) }
    ensures none { IfNone result ((h : ResponseHead) (rest : List ℕ) → ReadsResponse front.now h rest → length headers.old < length h.fields) }
{
    match parse_response(front, headers) {
        Ok(Status::Complete(head)) => Some(head),
        Ok(Status::Partial) => None,
        Err(_) => None,
    }
}

// What a head answers, by its fields in `front` and its code, for what is behind it.
fn read_behind(
    alloc: Global,
    front: &[u8],
    headers: &[HeaderSpan],
    code: u16,
    rest: &[u8],
) -> Result<Reply, ReplyError>
    requires { All (IsHeaderWithin (length front.now)) headers.now }
    ensures { Gives result (FollowsHead code (map (header_bytes front.now) headers.now) rest.now) }
{
    if let Some(fault) = fault(front, headers, code, rest.len()) {
        return Err(fault);
    }
    if is_plain(front, headers) {
        return Ok(Reply {
            body: Vec::from_slice(alloc, rest)?,
        });
    }
    match joined(alloc, rest)? {
        Some(body) => Ok(Reply { body }),
        None => Err(ReplyError::Chunk),
    }
}

// The first rule that a head breaks, with so many bytes behind it.
fn fault(front: &[u8], headers: &[HeaderSpan], code: u16, size: usize) -> Option<ReplyError>
    requires { All (IsHeaderWithin (length front.now)) headers.now }
    ensures { result ≡ reply.fault_of code (map (header_bytes front.now) headers.now) size }
{
    if code != 200 {
        return Some(ReplyError::Status { code });
    }
    if !is_readable(front, headers) {
        return Some(ReplyError::Coding);
    }
    if !is_results(front, headers) {
        return Some(ReplyError::ContentType);
    }
    if !is_whole(front, headers, size) {
        return Some(ReplyError::Length);
    }
    None
}

fn is_readable(front: &[u8], headers: &[HeaderSpan]) -> bool
    requires { All (IsHeaderWithin (length front.now)) headers.now }
    ensures { result ≡ reply.is_readable (map (header_bytes front.now) headers.now) }
{
    is_uncoded(front, headers) && (is_plain(front, headers) || is_chunked(front, headers))
}

fn is_uncoded(front: &[u8], headers: &[HeaderSpan]) -> bool
    requires { All (IsHeaderWithin (length front.now)) headers.now }
    ensures { result ≡ list_all reply.is_identity (field.values (codes "content-encoding") (map (header_bytes front.now) headers.now)) }
{
    for header in headers {
        if is_same(header.name.of(front), b"content-encoding")
            && !is_same(header.value.of(front), b"identity")
        {
            return false;
        }
    }
    true
}

fn is_plain(front: &[u8], headers: &[HeaderSpan]) -> bool
    requires { All (IsHeaderWithin (length front.now)) headers.now }
    ensures { result ≡ reply.is_plain (map (header_bytes front.now) headers.now) }
{
    is_missing(front, headers, b"transfer-encoding")
}

fn is_chunked(front: &[u8], headers: &[HeaderSpan]) -> bool
    requires { All (IsHeaderWithin (length front.now)) headers.now }
    ensures { result ≡ field.has_one (codes "transfer-encoding") reply.is_chunked (map (header_bytes front.now) headers.now) }
{
    match only_value(front, headers, b"transfer-encoding") {
        Some(value) => is_same(value, b"chunked"),
        None => false,
    }
}

fn is_results(front: &[u8], headers: &[HeaderSpan]) -> bool
    requires { All (IsHeaderWithin (length front.now)) headers.now }
    ensures { result ≡ reply.is_results (map (header_bytes front.now) headers.now) }
{
    match only_value(front, headers, b"content-type") {
        Some(value) => is_results_type(value),
        None => false,
    }
}

fn is_results_type(value: &[u8]) -> bool
    ensures { result ≡ reply.is_results_type value.now }
{
    let media_type = media_type(value);
    is_same(media_type, b"application/sparql-results+json")
        || is_same(media_type, b"application/json")
}

fn is_whole(front: &[u8], headers: &[HeaderSpan], size: usize) -> bool
    requires { All (IsHeaderWithin (length front.now)) headers.now }
    ensures { result ≡ reply.is_whole size (map (header_bytes front.now) headers.now) }
{
    is_missing(front, headers, b"content-length")
        || (is_plain(front, headers) && has_length(front, headers, size))
}

fn has_length(front: &[u8], headers: &[HeaderSpan], size: usize) -> bool
    requires { All (IsHeaderWithin (length front.now)) headers.now }
    ensures { result ≡ field.has_one (codes "content-length") (request.is_length size) (map (header_bytes front.now) headers.now) }
{
    match only_value(front, headers, b"content-length") {
        Some(value) => is_length(value, size),
        None => false,
    }
}

fn is_length(value: &[u8], size: usize) -> bool
    ensures { result ≡ request.is_length size value.now }
{
    is_number(value) && number(value) == size as u64
}
