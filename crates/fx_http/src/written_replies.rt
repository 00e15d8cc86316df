//! Replies of an endpoint, as they are written.
ghost use Rattle.std.specs.Prelude.{◌≡◌, true, IfOk, string_bytes};
ghost use Rattle.fx_http.specs.Replies.{IsReply};
ghost use Rattle.fx_http.specs.WrittenReplies.{allowed, is_written_status, reason_of, reply_head, reply_of, type_of};

use fx_terms::Memory;
use std::alloc::{AllocError, Global};

/// The reply with a status and a body: results in JSON for the status 200, and else plain text. Its connection is closed
/// behind it. The status is 200, 400, 405, 411, 413, 415 or 502.
pub fn reply_bytes(alloc: Global, status: u16, body: &[u8]) -> Result<Vec<u8>, Memory>
    requires { is_written_status status ≡ true }
    ensures exact { IfOk result (λ bytes. bytes.items ≡ reply_of status body.now) }

    // With the status 200 it is read as a reply with this body.
    ensures read { IfOk result (λ bytes. status ≡ 200 → IsReply bytes.items body.now) }
{
    let head = head(alloc, status, body.len())?;
    let mut bytes = head.into_bytes();
    bytes.extend_from_slice(body)?;
    Ok(bytes)
}

// The lines in front of a body of so many bytes.
fn head(alloc: Global, status: u16, size: usize) -> Result<String, AllocError>
    requires { is_written_status status ≡ true }
    ensures { IfOk result (λ text. string_bytes text ≡ reply_head status size) }
{
    let reason = reason(status);
    let allowed = allowed(status);
    let media_type = media_type(status);
    format!(in alloc;
        "HTTP/1.1 {status} {reason}\r\n{allowed}Content-Type: {media_type}\r\nContent-Length: {size}\r\nConnection: close\r\n\r\n"
    )
}

fn reason(status: u16) -> &'static str
    ensures { result.now ≡ reason_of status }
{
    match status {
        200 => "OK",
        400 => "Bad Request",
        405 => "Method Not Allowed",
        411 => "Length Required",
        413 => "Content Too Large",
        415 => "Unsupported Media Type",
        _ => "Bad Gateway",
    }
}

// The line that names the methods that are allowed, where another was used.
fn allowed(status: u16) -> &'static str
    ensures { result.now ≡ allowed status }
{
    if status == 405 {
        "Allow: GET, POST\r\n"
    } else {
        ""
    }
}

fn media_type(status: u16) -> &'static str
    ensures { result.now ≡ type_of status }
{
    if status == 200 {
        "application/sparql-results+json"
    } else {
        "text/plain; charset=utf-8"
    }
}
