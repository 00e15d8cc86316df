//! What the parts of a request ask.
ghost use Rattle.std.specs.Prelude.{◌≡◌, ◌≢◌, ◌≤◌, All, Some, length, map, IsTrue, IfOk};
ghost use Rattle.httparse.specs.Spans.{IsHeaderWithin, header_bytes};
ghost use Rattle.fx_outside.specs.Faults.{HasRisen};
ghost use Rattle.fx_http.specs.Answers.{GivesAsked, IsRestWithin};
ghost use Rattle.fx_http.specs.RequestHeads.{AsksBehind, IsBodyBehind, IsBodyTaken, IsPartBehind, IsWholeHead};
ghost use Rattle.fx_http.specs.Requests as request;

use crate::fields::{
    are_numbers, is_missing, is_number, is_repeated, is_same, media_type, number, only_value,
};
use crate::forms::{names_dataset, only_query, query_part};
use crate::heads::MOST_FIELDS;
use crate::read_requests::{Asked, RequestError};
use crate::reading::read_up_to;
use crate::request_heads::read_spans;
use fx_outside::Source;
use httparse::spans::{EMPTY_HEADER_SPAN, HeaderSpan};
use std::alloc::Global;

const LONGEST_BODY: u64 = 67_108_864;

// What a head asks, with the body that is left behind it.
pub fn read_behind<S: Source>(
    alloc: Global,
    source: &mut S,
    front: &[u8],
) -> Result<Asked, RequestError>
    requires { IsWholeHead front.now }
    ensures found { IsTrue S.tells_left → GivesAsked result (AsksBehind front.now (S.left source.old)) }
    ensures taken { IsTrue S.tells_left → IfOk result (λ text. IsBodyBehind front.now (S.left source.old) (S.left source.new)) }
    ensures rest { IsTrue S.tells_left → IsRestWithin 67108864 (S.left source.old) (S.left source.new) }
    ensures within { IsTrue S.tells_left → IsPartBehind front.now (S.left source.old) (S.left source.new) }
    ensures kept { S.read_faults source.old ≤ S.read_faults source.new }
    ensures failed { result ≡ Err RequestError.Fault → HasRisen (S.read_faults source.old) (S.read_faults source.new) }
    ensures faultless { result ≢ Err RequestError.Fault → S.read_faults source.new ≡ S.read_faults source.old }
    ensures held { IsTrue S.tells_held → S.held source.new ≡ S.held source.old }
    ensures writes { S.write_faults source.new ≡ S.write_faults source.old }
{
    let mut headers = [EMPTY_HEADER_SPAN; MOST_FIELDS];
    let head = read_spans(front, &mut headers);
    read_parts(
        alloc,
        source,
        head.method.of(front),
        query_part(head.path.of(front)),
        front,
        &headers[..head.headers],
    )
}

// What a method, the query part of a target and fields ask, with the body that is left behind the head.
fn read_parts<S: Source>(
    alloc: Global,
    source: &mut S,
    method: &[u8],
    query: &[u8],
    front: &[u8],
    headers: &[HeaderSpan],
) -> Result<Asked, RequestError>
    requires { All (IsHeaderWithin (length front.now)) headers.now }
    ensures found { IsTrue S.tells_left → GivesAsked result (λ answer. request.parts_answer method.now (map (header_bytes front.now) headers.now) query.now (S.left source.old) ≡ answer) }
    ensures taken { IsTrue S.tells_left → IfOk result (λ text. IsBodyTaken (request.body_length method.now (map (header_bytes front.now) headers.now)) (S.left source.old) (S.left source.new)) }
    ensures rest { IsTrue S.tells_left → IsRestWithin 67108864 (S.left source.old) (S.left source.new) }
    ensures within { IsTrue S.tells_left → IsRestWithin (request.length_behind method.now (map (header_bytes front.now) headers.now)) (S.left source.old) (S.left source.new) }
    ensures kept { S.read_faults source.old ≤ S.read_faults source.new }
    ensures failed { result ≡ Err RequestError.Fault → HasRisen (S.read_faults source.old) (S.read_faults source.new) }
    ensures faultless { result ≢ Err RequestError.Fault → S.read_faults source.new ≡ S.read_faults source.old }
    ensures held { IsTrue S.tells_held → S.held source.new ≡ S.held source.old }
    ensures writes { S.write_faults source.new ≡ S.write_faults source.old }
{
    if method == b"GET".as_slice() {
        return get_answer(alloc, query);
    }
    if method != b"POST".as_slice() {
        return Err(RequestError::Method);
    }
    read_post(alloc, source, query, front, headers)
}

// What a POST asks, with the body that is left behind its head.
fn read_post<S: Source>(
    alloc: Global,
    source: &mut S,
    query: &[u8],
    front: &[u8],
    headers: &[HeaderSpan],
) -> Result<Asked, RequestError>
    requires { All (IsHeaderWithin (length front.now)) headers.now }
    ensures found { IsTrue S.tells_left → GivesAsked result (λ answer. let fields = map (header_bytes front.now) headers.now in request.post_answer (request.post_fault fields) fields query.now (S.left source.old) ≡ answer) }
    ensures taken { IsTrue S.tells_left → IfOk result (λ text. IsBodyTaken (request.stated_length (map (header_bytes front.now) headers.now)) (S.left source.old) (S.left source.new)) }
    ensures rest { IsTrue S.tells_left → IsRestWithin 67108864 (S.left source.old) (S.left source.new) }
    ensures within { IsTrue S.tells_left → let fields = map (header_bytes front.now) headers.now in IsRestWithin (request.post_length (request.post_fault fields) fields) (S.left source.old) (S.left source.new) }
    ensures kept { S.read_faults source.old ≤ S.read_faults source.new }
    ensures failed { result ≡ Err RequestError.Fault → HasRisen (S.read_faults source.old) (S.read_faults source.new) }
    ensures faultless { result ≢ Err RequestError.Fault → S.read_faults source.new ≡ S.read_faults source.old }
    ensures held { IsTrue S.tells_held → S.held source.new ≡ S.held source.old }
    ensures writes { S.write_faults source.new ≡ S.write_faults source.old }
{
    if let Some(fault) = post_fault(front, headers) {
        return Err(fault);
    }
    let size = stated_length(front, headers) as usize;
    let body = read_up_to(alloc, source, size)?;
    body_answer(alloc, query, front, headers, body)
}

// The first rule that the fields of a POST break.
fn post_fault(front: &[u8], headers: &[HeaderSpan]) -> Option<RequestError>
    requires { All (IsHeaderWithin (length front.now)) headers.now }
    ensures value { result ≡ request.post_fault (map (header_bytes front.now) headers.now) }
    ensures sound { result ≢ Some RequestError.Fault }
{
    if is_malformed(front, headers) {
        return Some(RequestError::Malformed);
    }
    if is_missing(front, headers, b"content-length") {
        return Some(RequestError::NoLength);
    }
    if stated_length(front, headers) > LONGEST_BODY {
        return Some(RequestError::TooLong);
    }
    if !is_query(front, headers) && !is_form(front, headers) {
        return Some(RequestError::MediaType);
    }
    None
}

fn is_malformed(front: &[u8], headers: &[HeaderSpan]) -> bool
    requires { All (IsHeaderWithin (length front.now)) headers.now }
    ensures { result ≡ request.is_malformed (map (header_bytes front.now) headers.now) }
{
    is_repeated(front, headers, b"content-length")
        || is_repeated(front, headers, b"content-type")
        || (!is_missing(front, headers, b"content-length")
            && !is_missing(front, headers, b"transfer-encoding"))
        || !are_numbers(front, headers, b"content-length")
}

// How many bytes the one Content-Length gives the body, or 0.
fn stated_length(front: &[u8], headers: &[HeaderSpan]) -> u64
    requires { All (IsHeaderWithin (length front.now)) headers.now }
    ensures { result ≡ request.stated_length (map (header_bytes front.now) headers.now) }
{
    match only_value(front, headers, b"content-length") {
        Some(value) => number_or_zero(value),
        None => 0,
    }
}

fn number_or_zero(value: &[u8]) -> u64
    ensures { result ≡ request.length_in (Some value.now) }
{
    if is_number(value) { number(value) } else { 0 }
}

fn is_query(front: &[u8], headers: &[HeaderSpan]) -> bool
    requires { All (IsHeaderWithin (length front.now)) headers.now }
    ensures { result ≡ request.is_query (map (header_bytes front.now) headers.now) }
{
    match only_value(front, headers, b"content-type") {
        Some(value) => is_same(media_type(value), b"application/sparql-query"),
        None => false,
    }
}

fn is_form(front: &[u8], headers: &[HeaderSpan]) -> bool
    requires { All (IsHeaderWithin (length front.now)) headers.now }
    ensures { result ≡ request.is_form (map (header_bytes front.now) headers.now) }
{
    match only_value(front, headers, b"content-type") {
        Some(value) => is_same(media_type(value), b"application/x-www-form-urlencoded"),
        None => false,
    }
}

// What a GET asks, by the query part of its target.
fn get_answer(alloc: Global, query: &[u8]) -> Result<Asked, RequestError>
    ensures value { GivesAsked result (λ answer. request.get_answer query.now ≡ answer) }
    ensures sound { result ≢ Err RequestError.Fault }
{
    if names_dataset(alloc, query)? {
        return Err(RequestError::Dataset);
    }
    only_query(alloc, query)
}

// What a POST asks whose body has come as far as it does.
fn body_answer(
    alloc: Global,
    query: &[u8],
    front: &[u8],
    headers: &[HeaderSpan],
    body: Vec<u8>,
) -> Result<Asked, RequestError>
    requires { All (IsHeaderWithin (length front.now)) headers.now }
    ensures value { GivesAsked result (λ answer. request.body_answer (map (header_bytes front.now) headers.now) query.now body.items ≡ answer) }
    ensures whole { IfOk result (λ text. request.stated_length (map (header_bytes front.now) headers.now) ≤ length body.items) }
    ensures sound { result ≢ Err RequestError.Fault }
{
    if (body.len() as u64) < stated_length(front, headers) {
        return Err(RequestError::Ended);
    }
    if is_form(front, headers) {
        form_answer(alloc, query, &body)
    } else {
        text_answer(alloc, query, body)
    }
}

fn form_answer(alloc: Global, query: &[u8], form: &[u8]) -> Result<Asked, RequestError>
    ensures value { GivesAsked result (λ answer. request.form_answer query.now form.now ≡ answer) }
    ensures sound { result ≢ Err RequestError.Fault }
{
    if names_dataset(alloc, query)? || names_dataset(alloc, form)? {
        return Err(RequestError::Dataset);
    }
    only_query(alloc, form)
}

fn text_answer(alloc: Global, query: &[u8], text: Vec<u8>) -> Result<Asked, RequestError>
    ensures value { GivesAsked result (λ answer. request.text_answer query.now text.items ≡ answer) }
    ensures sound { result ≢ Err RequestError.Fault }
{
    if names_dataset(alloc, query)? {
        return Err(RequestError::Dataset);
    }
    Ok(Asked { text })
}
