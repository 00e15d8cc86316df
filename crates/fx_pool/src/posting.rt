//! One text for one endpoint over one wire.
ghost use Rattle.std.specs.Prelude.{◌≡◌, ◌≢◌, ◌+◌, ◌≤◌, ◌++◌, List, ℕ, IfOk, IsTrue, true};
ghost use Rattle.fx_outside.specs.Endpoints.{is_sendable};
ghost use Rattle.fx_pool.specs.Posting as spec;

use fx_http::request_bytes;
use fx_outside::Endpoint;
use fx_terms::{Items, Memory};
use fx_wire::{Wire, WireError};
use std::alloc::Global;

/// The most bytes that the text of a request may have, and a reply.
pub const LONGEST: u64 = 67_108_864;

/// What came of a text that was to be sent.
#[derive(Drop)]
pub enum Posted {
    /// It was sent in this request, and this is the reply.
    Replied {
        request: Items<u8>,
        reply: Items<u8>,
    },
    /// The exchange failed, and was counted as a fault at the endpoint's address.
    Failed,
    /// It has more than 67,108,864 bytes, so many, and nothing was sent.
    TooLong {
        length: u64,
    },
}

/// Sends a text to an endpoint, where it isn't too long, and takes the reply.
pub fn post<W: Wire>(
    alloc: Global,
    wire: &mut W,
    at: &Endpoint,
    text: &str,
) -> Result<Posted, Memory>
    requires sendable { is_sendable at.now ≡ true }
    ensures posted { IfOk result (λ posted. spec.IsPosted at.now text.now posted) }
    ensures logged { IsTrue (W.seen wire.old).tells_log → (W.seen wire.new).log ≡ (W.seen wire.old).log ++ spec.exchanges_in at.now result }
    ensures honest { IfOk result (λ posted. spec.AreHonest (W.seen wire.old).graph (spec.exchanges_of at.now posted)) }
    ensures same { (address : List ℕ) → (W.seen wire.new).graph address ≡ (W.seen wire.old).graph address }
    ensures kept { (address : List ℕ) → (W.seen wire.old).faults address ≤ (W.seen wire.new).faults address }
    ensures counted { (W.seen wire.new).faults at.now.iri ≡ (W.seen wire.old).faults at.now.iri + spec.failures_in result }
    ensures others { IsTrue W.counts_alone → (address : List ℕ) → address ≢ at.now.iri → (W.seen wire.new).faults address ≡ (W.seen wire.old).faults address }
{
    let length = text.len() as u64;
    if length > LONGEST {
        return Ok(Posted::TooLong { length });
    }
    let request = request_bytes(alloc, at, text)?;
    match wire.exchange(alloc, at, request.as_slice(), LONGEST) {
        Ok(reply) => Ok(Posted::Replied {
            request: Items::from_vec(request),
            reply: Items::from_vec(reply),
        }),
        Err(WireError::Failed) => Ok(Posted::Failed),
        Err(WireError::Memory) => Err(Memory),
    }
}
