//! The calls of `fx_http`.
ghost use Rattle.std.specs.Prelude.{◌<◌, ◌≡◌, true, IfSome};
ghost use Rattle.fx_http.specs.WrittenReplies.{is_written_status};

use crate::wires::endpoint_of;
use fx_http::{
    Asked, Reply, ReplyError, RequestError, read_reply, read_request, reply_bytes, request_bytes,
};
use fx_notation::{escapes, fields, shown};
use fx_outside::{Endpoint, MemoryLink, Source};
use std::alloc::Global;

// More bytes than any request of a case has.
const WHOLE: u64 = 1_000_000;

/// What a call gives.
pub fn answer(alloc: Global, call: &str, inputs: &[&str]) -> Option<String> {
    match inputs {
        [field] => of_one(alloc, call, field),
        [first, second] => of_two(alloc, call, first, second),
        _ => None,
    }
}

// The calls on a request, and after them those on a reply, and on what is made of a request.
fn of_one(alloc: Global, call: &str, field: &str) -> Option<String> {
    match call {
        "read_request" => asked_by_field(alloc, field),
        "read_request of a long text" => asked_by_length(alloc, field),
        "read_request with each read failing" => faults(alloc, field),
        "read_request leaves" => left_behind(alloc, field),
        _ => of_reply(alloc, call, field),
    }
}

fn of_reply(alloc: Global, call: &str, field: &str) -> Option<String> {
    match call {
        "Asked::into_text" => text_taken_out(alloc, field),
        "RequestError::status" => status_text(alloc, field),
        "read_reply" => answered_by_field(alloc, field),
        "read_reply of a long head" => answered_by_head(alloc, field),
        "Reply::into_body" => body_taken_out(alloc, field),
        _ => None,
    }
}

fn of_two(alloc: Global, call: &str, first: &str, second: &str) -> Option<String> {
    match call {
        "request_bytes" => posted(alloc, first, second),
        "read_request of a long head" => asked_by_head(alloc, first, second),
        "reply_bytes" => replied(alloc, first, second),
        _ => None,
    }
}

// The request at a port of this machine.
fn posted(alloc: Global, port: &str, text: &str) -> Option<String> {
    let at = endpoint(alloc, port.parse::<u16>().ok()?)?;
    if !at.is_sendable() {
        return None;
    }
    shown::bytes(alloc, request_bytes(alloc, &at, text).ok()?.as_slice())
}

fn endpoint(alloc: Global, port: u16) -> Option<Endpoint> {
    let iri = "http://127.0.0.1:8001/sparql";
    endpoint_of(alloc, "A", iri, "127.0.0.1", port, "/sparql")
}

fn replied(alloc: Global, status: &str, field: &str) -> Option<String> {
    let status = written_status(status)?;
    let body = escapes::bytes(alloc, field)?;
    shown::bytes(
        alloc,
        reply_bytes(alloc, status, body.as_slice()).ok()?.as_slice(),
    )
}

fn written_status(text: &str) -> Option<u16>
    ensures { IfSome result (λ status. is_written_status status ≡ true) }
{
    match text {
        "200" => Some(200),
        "400" => Some(400),
        "405" => Some(405),
        "411" => Some(411),
        "413" => Some(413),
        "415" => Some(415),
        "502" => Some(502),
        _ => None,
    }
}

fn asked_by_field(alloc: Global, field: &str) -> Option<String> {
    asked(alloc, escapes::bytes(alloc, field)?.as_slice())
}

// What bytes ask, if it is the same where they come all at once and one by one.
fn asked(alloc: Global, bytes: &[u8]) -> Option<String> {
    let whole = asked_in_steps(alloc, bytes, WHOLE)?;
    let piecemeal = asked_in_steps(alloc, bytes, 1)?;
    if whole.as_str() == piecemeal.as_str() {
        return Some(whole);
    }
    format!(in alloc; "{whole} at once, {piecemeal} one by one").ok()
}

fn asked_in_steps(alloc: Global, bytes: &[u8], step: u64) -> Option<String>
    requires { 0 < step }
{
    let mut link = link(alloc, bytes, step, Vec::new(alloc))?;
    asked_text(alloc, &read_request(alloc, &mut link))
}

fn link(alloc: Global, bytes: &[u8], step: u64, fails: Vec<u64>) -> Option<MemoryLink>
    requires { 0 < step }
{
    let input = Vec::from_slice(alloc, bytes).ok()?;
    MemoryLink::new(alloc, input, 0, step, fails, Vec::new(alloc)).ok()
}

fn asked_text(alloc: Global, asked: &Result<Asked, RequestError>) -> Option<String> {
    match asked {
        Ok(asked) => shown::bytes(alloc, asked.text()),
        Err(error) => shown::word(alloc, error.name()),
    }
}

// What a GET asks with so many fields behind the first, which has so many bytes.
fn asked_by_head(alloc: Global, count: &str, size: &str) -> Option<String> {
    let value = fields::repeated(alloc, "x", size)?;
    let others = fields::repeated(alloc, "More: 1\r\n", count)?;
    let request = format!(in alloc;
        "GET /?query=a HTTP/1.1\r\nMore: {value}\r\n{others}\r\n"
    ).ok()?;
    asked(alloc, request.as_str().as_bytes())
}

// Whether a text of so many letters is what its POST asks.
fn asked_by_length(alloc: Global, size: &str) -> Option<String> {
    let size = size.parse::<u64>().ok()?;
    let text = letters(alloc, size)?;
    let text = text.as_str();
    let request = format!(in alloc;
        "POST / HTTP/1.1\r\nContent-Type: application/sparql-query\r\nContent-Length: {size}\r\n\r\n{text}"
    ).ok()?;
    let found = asked(alloc, request.as_str().as_bytes())?;
    let is_same = found.as_str() == text;
    shown::word(alloc, if is_same { "the text" } else { "another" })
}

// So many letters: an `a`, six times `b`, and so on.
fn letters(alloc: Global, size: u64) -> Option<String> {
    let mut text = String::new(alloc);
    for at in 0..size {
        text.push(if at % 7 == 0 { 'a' } else { 'b' }).ok()?;
    }
    Some(text)
}

// What bytes that come one by one ask where one read fails, for each read from the first on until all are read.
fn faults(alloc: Global, field: &str) -> Option<String> {
    let bytes = escapes::bytes(alloc, field)?;
    let mut count = 0u64;
    for number in 1..u64::MAX {
        let text = asked_with_fault(alloc, bytes.as_slice(), number)?;
        if text.as_str() != "Fault" {
            let text = text.as_str();
            return format!(in alloc; "Fault at {count} reads, then {text}").ok();
        }
        count = number;
    }
    None
}

fn asked_with_fault(alloc: Global, bytes: &[u8], number: u64) -> Option<String> {
    let mut fails = Vec::new(alloc);
    fails.push(number).ok()?;
    let mut link = link(alloc, bytes, 1, fails)?;
    asked_text(alloc, &read_request(alloc, &mut link))
}

// What is left behind the request that bytes begin with.
fn left_behind(alloc: Global, field: &str) -> Option<String> {
    let bytes = escapes::bytes(alloc, field)?;
    let mut link = link(alloc, bytes.as_slice(), 1_000, Vec::new(alloc))?;
    let _ = read_request(alloc, &mut link);
    let mut rest = [0; 100];
    match link.read(&mut rest) {
        Ok(count) => shown::bytes(alloc, &rest[..count]),
        Err(_) => None,
    }
}

fn text_taken_out(alloc: Global, field: &str) -> Option<String> {
    let bytes = escapes::bytes(alloc, field)?;
    let mut link = link(alloc, bytes.as_slice(), WHOLE, Vec::new(alloc))?;
    let asked = read_request(alloc, &mut link).ok()?;
    shown::bytes(alloc, asked.into_text().as_slice())
}

fn status_text(alloc: Global, name: &str) -> Option<String> {
    let error = error_named(name)?;
    let name = error.name();
    match error.status() {
        Some(status) => format!(in alloc; "{name} {status}").ok(),
        None => format!(in alloc; "{name} without status").ok(),
    }
}

fn error_named(name: &str) -> Option<RequestError> {
    match name {
        "Fault" => Some(RequestError::Fault),
        "Malformed" => Some(RequestError::Malformed),
        "Method" => Some(RequestError::Method),
        "MediaType" => Some(RequestError::MediaType),
        "NoQuery" => Some(RequestError::NoQuery),
        "TwoQueries" => Some(RequestError::TwoQueries),
        "Dataset" => Some(RequestError::Dataset),
        "NoLength" => Some(RequestError::NoLength),
        "TooLong" => Some(RequestError::TooLong),
        "Ended" => Some(RequestError::Ended),
        "Memory" => Some(RequestError::Memory),
        _ => None,
    }
}

fn answered_by_field(alloc: Global, field: &str) -> Option<String> {
    answered(alloc, escapes::bytes(alloc, field)?.as_slice())
}

// The body of a reply, or why bytes are none.
fn answered(alloc: Global, bytes: &[u8]) -> Option<String> {
    match read_reply(alloc, bytes) {
        Ok(reply) => shown::bytes(alloc, reply.body()),
        Err(error) => fault_text(alloc, error),
    }
}

fn fault_text(alloc: Global, error: ReplyError) -> Option<String> {
    match error {
        ReplyError::TooLong => shown::word(alloc, "TooLong"),
        ReplyError::Head => shown::word(alloc, "Head"),
        ReplyError::Status { code } => format!(in alloc; "Status {code}").ok(),
        ReplyError::Coding => shown::word(alloc, "Coding"),
        ReplyError::ContentType => shown::word(alloc, "ContentType"),
        ReplyError::Length => shown::word(alloc, "Length"),
        ReplyError::Chunk => shown::word(alloc, "Chunk"),
        ReplyError::Memory => None,
    }
}

// What a reply with so many fields behind the first gives.
fn answered_by_head(alloc: Global, count: &str) -> Option<String> {
    let others = fields::repeated(alloc, "More: 1\r\n", count)?;
    let reply = format!(in alloc;
        "HTTP/1.1 200 OK\r\nContent-Type: application/json\r\n{others}\r\n{{}}"
    ).ok()?;
    answered(alloc, reply.as_str().as_bytes())
}

fn body_taken_out(alloc: Global, field: &str) -> Option<String> {
    let bytes = escapes::bytes(alloc, field)?;
    let reply: Reply = read_reply(alloc, bytes.as_slice()).ok()?;
    shown::bytes(alloc, reply.into_body().as_slice())
}
