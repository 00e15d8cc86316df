//! Requests of a query, as they are read.
ghost use Rattle.std.specs.Prelude.{◌≡◌, ◌≢◌, ◌≤◌, ◌++◌, ℕ, List, Result as Answer, IsTrue, IfOk, IfSome, true};
ghost use Rattle.fx_outside.specs.Faults.{HasRisen};
ghost use Rattle.fx_http.specs.Answers.{GivesAsked, IsOrLost, IsRestWithin};
ghost use Rattle.fx_http.specs.Requests.{Asks, IsRequest, TakesOfRequest, request_error_name, status_of};
ghost use Rattle.fx_http.specs.WrittenReplies.{is_written_status};

use crate::request_heads::read_head;
use crate::request_parts::read_behind;
use fx_outside::{ReadFailed, Source};
use std::alloc::{AllocError, Global};
use std::marker::Model;

/// Why bytes are no request of a query: the first of these rules that they break, in this order: `Malformed` of the head,
/// `Method`, `Malformed` of the fields, `NoLength`, `TooLong`, `MediaType`, `Ended`, `Dataset`, `NoQuery`, `TwoQueries`.
#[derive(Clone, Copy, Debug, PartialEq, Eq)]
pub enum RequestError {
    /// A read failed.
    Fault,
    /// The first 65,536 bytes hold no head (RFC 9112, 3 and 5, as `httparse` reads it by its default rules), or one of more
    /// than 100 fields. Or a POST has two Content-Length or two Content-Type, or Content-Length beside Transfer-Encoding, or
    /// a Content-Length that isn't 1 to 19 digits.
    Malformed,
    /// The method is neither `GET` nor `POST`.
    Method,
    /// A POST has another media type than `application/sparql-query` and `application/x-www-form-urlencoded`.
    MediaType,
    /// A GET or a form has no pair that is named `query`.
    NoQuery,
    /// A GET or a form has two pairs that are named `query`.
    TwoQueries,
    /// A pair of the target's query part, or of a form, is named `default-graph-uri` or `named-graph-uri`.
    Dataset,
    /// A POST has no Content-Length.
    NoLength,
    /// The Content-Length of a POST is above 67,108,864.
    TooLong,
    /// The body ends early.
    Ended,
    /// Memory ran out.
    Memory,
}

impl From<AllocError> for RequestError {
    ghost use Rattle.std.specs.Prelude.{◌≡◌};
    ghost use Rattle.fx_http.specs.declared.read_requests.RequestError.TheVariants.{Memory};

    ghost from_gives = { λ _ e. e ≡ Memory };

    fn from(_error: AllocError) -> RequestError {
        RequestError::Memory
    }
}

impl From<ReadFailed> for RequestError {
    ghost use Rattle.std.specs.Prelude.{◌≡◌};
    ghost use Rattle.fx_http.specs.declared.read_requests.RequestError.TheVariants.{Fault};

    ghost from_gives = { λ _ e. e ≡ Fault };

    fn from(_error: ReadFailed) -> RequestError {
        RequestError::Fault
    }
}

impl RequestError {
    /// The status that a request is refused with (RFC 9110, 15.5). A fault of reading and want of memory have none.
    pub fn status(self) -> Option<u16>
        ensures exact { result ≡ status_of self }
        ensures written { IfSome result (λ status. is_written_status status ≡ true) }
    {
        match self {
            RequestError::Malformed
            | RequestError::NoQuery
            | RequestError::TwoQueries
            | RequestError::Dataset
            | RequestError::Ended => Some(400),
            RequestError::Method => Some(405),
            RequestError::NoLength => Some(411),
            RequestError::TooLong => Some(413),
            RequestError::MediaType => Some(415),
            RequestError::Fault | RequestError::Memory => None,
        }
    }

    /// What it is called.
    pub fn name(self) -> &'static str
        ensures { result.now ≡ request_error_name self }
    {
        match self {
            RequestError::Fault => "Fault",
            RequestError::Malformed => "Malformed",
            RequestError::Method => "Method",
            RequestError::MediaType => "MediaType",
            RequestError::NoQuery => "NoQuery",
            RequestError::TwoQueries => "TwoQueries",
            RequestError::Dataset => "Dataset",
            RequestError::NoLength => "NoLength",
            RequestError::TooLong => "TooLong",
            RequestError::Ended => "Ended",
            RequestError::Memory => "Memory",
        }
    }
}

/// The text that a request asks. Contracts see its bytes.
#[derive(Drop)]
pub struct Asked {
    pub(crate) text: Vec<u8>,
}

impl Model for Asked {
    ghost use Rattle.std.specs.Prelude.{List, ℕ};

    ghost Value = { List ℕ };

    ghost view = { λ a. a.text.items };
}

impl Asked {
    /// The text.
    pub fn text(&self) -> &[u8]
        ensures { result.now ≡ self.now }
    {
        self.text.as_slice()
    }

    /// The text, taken out.
    pub fn into_text(self) -> Vec<u8>
        ensures { result.items ≡ self }
    {
        self.text
    }
}

/// The text of the request that a source begins with: a GET with a `query` in its target, a POST of a form, or a POST of
/// the text itself (SPARQL 1.1 Protocol, 2.1). Of a source that tells what is left, the answer is what that asks, however
/// the reads cut it.
///
/// What is behind the request isn't read, also where it is refused. Of an input without a head at most 65,536 bytes are taken,
/// and behind a head at most the body of a POST whose fields break no rule, which is 67,108,864 bytes at most. `Fault` comes
/// where a read failed; each other error comes exactly where `RequestError` says, and none of those before it does.
pub fn read_request<S: Source>(alloc: Global, source: &mut S) -> Result<Asked, RequestError>
    ensures found { IsTrue S.tells_left → GivesAsked result (Asks (S.left source.old)) }

    // What is left asks nothing else.
    ensures only { IsTrue S.tells_left → (answer : Answer (List ℕ) RequestError) → Asks (S.left source.old) answer → IsOrLost result answer }
    ensures taken { IsTrue S.tells_left → IfOk result (λ text. (bytes : List ℕ) × (S.left source.old ≡ bytes ++ S.left source.new) × IsRequest bytes text) }
    ensures rest { IsTrue S.tells_left → IsRestWithin 67174400 (S.left source.old) (S.left source.new) }

    // Whatever the answer, nothing behind the request was taken.
    ensures within { IsTrue S.tells_left → TakesOfRequest (S.left source.old) (S.left source.new) }
    ensures kept { S.read_faults source.old ≤ S.read_faults source.new }
    ensures failed { result ≡ Err RequestError.Fault → HasRisen (S.read_faults source.old) (S.read_faults source.new) }
    ensures faultless { result ≢ Err RequestError.Fault → S.read_faults source.new ≡ S.read_faults source.old }
    ensures held { IsTrue S.tells_held → S.held source.new ≡ S.held source.old }
    ensures writes { S.write_faults source.new ≡ S.write_faults source.old }
{
    let front = read_head(alloc, source)?;
    read_behind(alloc, source, &front)
}
