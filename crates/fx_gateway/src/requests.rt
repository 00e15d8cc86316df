//! A request before anything is asked for it.
ghost use Rattle.std.specs.Prelude.{◌≡◌, ◌≢◌, ◌≤◌, Err, IfOk, IsTrue};
ghost use Rattle.fx_http.specs.Requests.{TakesOfRequest};
ghost use Rattle.fx_outside.specs.Faults.{HasRisen};
ghost use Rattle.fx_gateway.specs.Connected.{link_seen};
ghost use Rattle.fx_gateway.specs.Steps.{IsReceived, IsTextReceived};

use fx_algebra::Query;
use fx_http::read_request;
use fx_member::ServeError;
use fx_member::serving::{Reply, refused_reply, syntax_reply};
use fx_outside::Source;
use fx_syntax::{SyntaxError, parse};
use fx_terms::{Boxed, Memory};
use std::alloc::Global;

/// What a request is.
#[derive(Drop)]
pub enum Received {
    /// It asks this query.
    Asks(Boxed<Query>),
    /// It is refused, and this is the reply.
    Refused(Reply),
}

/// The query of the request that a source begins with, or the reply that refuses the request or its text.
pub fn read_query<S: Source>(alloc: Global, source: &mut S) -> Result<Received, ServeError>
    ensures received { IfOk result (IsReceived (link_seen S.Ends source.old)) }
    ensures within { IsTrue S.tells_left → TakesOfRequest (S.left source.old) (S.left source.new) }
    ensures kept { S.read_faults source.old ≤ S.read_faults source.new }
    ensures failed { result ≡ Err ServeError.ReadFault → HasRisen (S.read_faults source.old) (S.read_faults source.new) }
    ensures faultless { result ≢ Err ServeError.ReadFault → S.read_faults source.new ≡ S.read_faults source.old }
    ensures unwritten { result ≢ Err ServeError.WriteFault }
    ensures held { IsTrue S.tells_held → S.held source.new ≡ S.held source.old }
    ensures writes { S.write_faults source.new ≡ S.write_faults source.old }
{
    match read_request(alloc, source) {
        Ok(asked) => Ok(text_received(alloc, asked.text())?),
        Err(error) => Ok(Received::Refused(refused_reply(alloc, error)?)),
    }
}

// The query that a text is, or the reply that refuses it.
fn text_received(alloc: Global, text: &[u8]) -> Result<Received, Memory>
    ensures { IfOk result (IsTextReceived text.now) }
{
    match parse(alloc, text) {
        Ok(query) => Ok(Received::Asks(Boxed::new(alloc, query)?)),
        Err(SyntaxError::Refused { kind, place }) => {
            Ok(Received::Refused(syntax_reply(alloc, kind, place)?))
        }
        Err(SyntaxError::Memory) => Err(Memory),
    }
}
