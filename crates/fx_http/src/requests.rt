//! Requests to endpoints.
ghost use Rattle.std.specs.Prelude.{◌≡◌, ◌≤◌, true, length, IfOk, string_bytes};
ghost use Rattle.fx_outside.specs.Endpoints.{is_sendable};
ghost use Rattle.fx_http.specs.Requests.{IsRequest, authority, request_of};

use fx_outside::Endpoint;
use fx_terms::Memory;
use std::alloc::{AllocError, Global};

/// The request by which an endpoint is asked a query's text: it posts the text as it is (SPARQL 1.1 Protocol, 2.1.3), and
/// asks for results in JSON, uncompressed, on a connection of its own.
pub fn request_bytes(alloc: Global, at: &Endpoint, text: &str) -> Result<Vec<u8>, Memory>
    requires sendable { is_sendable at.now ≡ true }
    ensures exact { IfOk result (λ bytes. bytes.items ≡ request_of at.now text.now) }

    // A text above the most bytes of a body is refused by who reads it.
    ensures whole { length text.now ≤ 67108864 → IfOk result (λ bytes. IsRequest bytes.items text.now) }
{
    let target = at.target();
    let authority = authority(alloc, at.host(), at.port())?;
    let length = text.len();
    let request = format!(in alloc;
        "POST {target} HTTP/1.1\r\nHost: {authority}\r\nContent-Type: application/sparql-query\r\nAccept: application/sparql-results+json\r\nAccept-Encoding: identity\r\nConnection: close\r\nContent-Length: {length}\r\n\r\n{text}"
    )?;
    Ok(request.into_bytes())
}

// The host, and the port where it isn't 80.
fn authority(alloc: Global, host: &str, port: u16) -> Result<String, AllocError>
    ensures { IfOk result (λ text. string_bytes text ≡ authority host.now port) }
{
    if port == 80 {
        String::from_str(alloc, host)
    } else {
        format!(in alloc; "{host}:{port}")
    }
}
