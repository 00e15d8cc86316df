//! Serving one request.
ghost use Rattle.std.specs.Prelude.{◌≡◌, ◌≢◌, ◌≤◌, ◌++◌, [], ℕ, List, true, Err, IfOk, IsTrue, Some};
ghost use Rattle.fx_algebra.specs.Answers.{answer_alone};
ghost use Rattle.fx_algebra.specs.Occurrences.{services};
ghost use Rattle.fx_http.specs.Replies.{IsReply};
ghost use Rattle.fx_http.specs.Requests.{TakesOfRequest, request_error_name, status_of};
ghost use Rattle.fx_http.specs.WrittenReplies.{is_written_status};
ghost use Rattle.fx_member.specs.GraphWires.{RepliesTo};
ghost use Rattle.fx_member.specs.Served.{IsLaidOut, IsServed, IsTextTold, Told, own_line, query_told, syntax_told, told};
ghost use Rattle.fx_outside.specs.Faults.{HasRisen};
ghost use Rattle.fx_outside.specs.Streams.{AppendsFront};
ghost use Rattle.fx_results.specs.Documents.{document};
ghost use Rattle.fx_results.specs.Meanings.{binds_columns};
ghost use Rattle.fx_grammar.specs.Accepted.{IsSpellable};
ghost use Rattle.fx_wire.specs.Honest.{IsHonest, Replies};

use fx_algebra::{Answer, Query};
use fx_evaluation::{MemberError, answer};
use fx_http::{RequestError, read_request, reply_bytes};
use fx_outside::{Sink, Source, WriteFailed, write_all};
use fx_results::write;
use fx_store::Store;
use fx_syntax::{SyntaxError, SyntaxKind, parse};
use fx_terms::Memory;
use std::alloc::Global;

/// What was served: the status of the reply.
#[derive(Clone, Copy, PartialEq, Eq)]
pub struct Served {
    pub status: u16,
}

/// Why no whole reply was written.
#[derive(Clone, Copy, Debug, PartialEq, Eq)]
pub enum ServeError {
    /// A read failed, and nothing was written.
    ReadFault,
    /// A write failed, and a front of the reply was written.
    WriteFault,
    /// Memory ran out, and nothing was written.
    Memory,
}

impl From<Memory> for ServeError {
    ghost use Rattle.std.specs.Prelude.{◌≡◌};
    ghost use Rattle.fx_member.specs.declared.serving.ServeError.TheVariants.{Memory};

    ghost from_gives = { λ _ e. e ≡ Memory };

    fn from(_error: Memory) -> ServeError {
        ServeError::Memory
    }
}

// A reply that is ready to be written, with its status.
#[derive(Drop)]
pub struct Reply {
    pub status: u16,
    pub bytes: Vec<u8>,
}

/// Reads one request from a link and writes the whole reply to it (SPARQL 1.1 Protocol, 2.1). What is behind the request isn't
/// read, also where it is refused.
///
/// The status is 200 with the results of a query without SERVICE; 400, 405, 411, 413 or 415 with the name of what the request is
/// refused for, on a line; 400 with `KIND at PLACE` where the text is no query, and with `ServiceHere` where the query has a
/// SERVICE.
///
/// `ReadFault` comes where a read failed, and `Memory` where memory runs out: nothing is written then. `WriteFault` comes where
/// a write failed: a front of the reply is written then.
pub fn serve_one<L: Source + Sink>(
    alloc: Global,
    store: &Store,
    link: &mut L,
) -> Result<Served, ServeError>
    ensures served { IsTrue L.tells_left → IsTrue L.tells_held → IfOk result (λ served. (reply : List ℕ) × IsServed store.now (L.left link.old) served.status reply × (L.held link.new ≡ L.held link.old ++ reply)) }
    ensures honest { IsTrue L.tells_left → IsTrue L.tells_held → IfOk result (λ _. (reply : List ℕ) × IsHonest store.now (L.left link.old) reply × (L.held link.new ≡ L.held link.old ++ reply)) }
    ensures within { IsTrue L.tells_left → TakesOfRequest (L.left link.old) (L.left link.new) }
    ensures front { IsTrue L.tells_left → IsTrue L.tells_held → result ≡ Err ServeError.WriteFault → (status : ℕ) × (reply : List ℕ) × IsServed store.now (L.left link.old) status reply × AppendsFront (L.held link.old) (L.held link.new) reply }
    ensures nothing { IsTrue L.tells_held → result ≡ Err ServeError.ReadFault → L.held link.new ≡ L.held link.old }
    ensures no_memory { IsTrue L.tells_held → result ≡ Err ServeError.Memory → L.held link.new ≡ L.held link.old }
    ensures kept_reads { L.read_faults link.old ≤ L.read_faults link.new }
    ensures kept_writes { L.write_faults link.old ≤ L.write_faults link.new }
    ensures failed_read { result ≡ Err ServeError.ReadFault → HasRisen (L.read_faults link.old) (L.read_faults link.new) }
    ensures failed_write { result ≡ Err ServeError.WriteFault → HasRisen (L.write_faults link.old) (L.write_faults link.new) }
    ensures faultless_reads { result ≢ Err ServeError.ReadFault → L.read_faults link.new ≡ L.read_faults link.old }
    ensures faultless_writes { result ≢ Err ServeError.WriteFault → L.write_faults link.new ≡ L.write_faults link.old }
{
    let reply = prepare(alloc, store, link)?;
    match write_all(link, reply.bytes.as_slice()) {
        Ok(()) => Ok(Served {
            status: reply.status,
        }),
        Err(WriteFailed) => Err(ServeError::WriteFault),
    }
}

/// The whole reply to the request that a source begins with.
pub fn prepare<S: Source>(alloc: Global, store: &Store, source: &mut S) -> Result<Reply, ServeError>
    ensures served { IsTrue S.tells_left → IfOk result (λ reply. IsServed store.now (S.left source.old) reply.status reply.bytes.items) }
    ensures honest { IsTrue S.tells_left → IfOk result (λ reply. IsHonest store.now (S.left source.old) reply.bytes.items) }
    ensures within { IsTrue S.tells_left → TakesOfRequest (S.left source.old) (S.left source.new) }
    ensures kept { S.read_faults source.old ≤ S.read_faults source.new }
    ensures failed { result ≡ Err ServeError.ReadFault → HasRisen (S.read_faults source.old) (S.read_faults source.new) }
    ensures faultless { result ≢ Err ServeError.ReadFault → S.read_faults source.new ≡ S.read_faults source.old }
    ensures unwritten { result ≢ Err ServeError.WriteFault }
    ensures held { IsTrue S.tells_held → S.held source.new ≡ S.held source.old }
    ensures writes { S.write_faults source.new ≡ S.write_faults source.old }
{
    match read_request(alloc, source) {
        Ok(asked) => Ok(text_reply(alloc, store, asked.text())?),
        Err(error) => refused_reply(alloc, error),
    }
}

/// The reply to a request that is refused, which names what it is refused for.
///
/// Where the request wasn't read, since a read failed or memory ran out, there is none.
pub fn refused_reply(alloc: Global, error: RequestError) -> Result<Reply, ServeError>
    ensures told { IfOk result (λ reply. (status : ℕ) × (status_of error ≡ Some status) × IsLaidOut (told status (own_line (request_error_name error))) reply.status reply.bytes.items) }
    ensures fault { result ≡ Err ServeError.ReadFault → error ≡ RequestError.Fault }
    ensures memory { result ≢ Err ServeError.ReadFault → error ≢ RequestError.Fault }
    ensures unwritten { result ≢ Err ServeError.WriteFault }
{
    match error.status() {
        Some(status) => Ok(with_name(alloc, status, error.name())?),
        None => Err(lost(error)),
    }
}

// Why a request was neither read nor refused.
fn lost(error: RequestError) -> ServeError
    ensures fault { result ≡ ServeError.ReadFault → error ≡ RequestError.Fault }
    ensures memory { result ≢ ServeError.ReadFault → error ≢ RequestError.Fault }
    ensures unwritten { result ≢ ServeError.WriteFault }
{
    if error == RequestError::Fault {
        ServeError::ReadFault
    } else {
        ServeError::Memory
    }
}

// The reply to a text.
fn text_reply(alloc: Global, store: &Store, text: &[u8]) -> Result<Reply, Memory>
    ensures told { IfOk result (λ reply. (t : Told) × IsTextTold store.now text.now t × IsLaidOut t reply.status reply.bytes.items) }
    ensures means { IfOk result (λ reply. RepliesTo store.now text.now reply.bytes.items) }
{
    match parse(alloc, text) {
        Ok(query) => query_reply(alloc, store, &query),
        Err(SyntaxError::Refused { kind, place }) => syntax_reply(alloc, kind, place),
        Err(SyntaxError::Memory) => Err(Memory),
    }
}

/// The reply that says why a text is no query, and where.
pub fn syntax_reply(alloc: Global, kind: SyntaxKind, place: u64) -> Result<Reply, Memory>
    ensures { IfOk result (λ reply. IsLaidOut (syntax_told kind place) reply.status reply.bytes.items) }
{
    let kind = kind.name();
    let why = format!(in alloc; "{kind} at {place}\n")?;
    with_body(alloc, 400, why.as_bytes())
}

// The reply to a query. One that would have to ask another endpoint has no answer here.
fn query_reply(alloc: Global, store: &Store, query: &Query) -> Result<Reply, Memory>
    requires { IsSpellable query.now }
    ensures told { IfOk result (λ reply. IsLaidOut (query_told query.now store.now) reply.status reply.bytes.items) }
    ensures means { IfOk result (λ reply. services query.now ≡ [] → Replies reply.bytes.items (answer_alone query.now store.now)) }
{
    match answer(alloc, store, query, &[]) {
        Ok(answer) => with_answer(alloc, &answer),
        Err(MemberError::ServiceHere { place: _ }) => with_name(alloc, 400, "ServiceHere"),
        Err(MemberError::Memory) => Err(Memory),
    }
}

/// The reply with an answer. It means the answer, where that binds its columns alone.
pub fn with_answer(alloc: Global, answer: &Answer) -> Result<Reply, Memory>
    ensures told { IfOk result (λ reply. IsLaidOut (told 200 (document answer.now)) reply.status reply.bytes.items) }
    ensures means { binds_columns answer.now ≡ true → IfOk result (λ reply. Replies reply.bytes.items answer.now) }
{
    let document = write(alloc, answer)?;
    with_body(alloc, 200, document.as_slice())
}

/// The reply with a name on a line of its own. The status is one that a reply is written with.
pub fn with_name(alloc: Global, status: u16, name: &str) -> Result<Reply, Memory>
    requires { is_written_status status ≡ true }
    ensures { IfOk result (λ reply. IsLaidOut (told status (own_line name.now)) reply.status reply.bytes.items) }
{
    let line = format!(in alloc; "{name}\n")?;
    with_body(alloc, status, line.as_bytes())
}

// The reply with a status and a body.
fn with_body(alloc: Global, status: u16, body: &[u8]) -> Result<Reply, Memory>
    requires { is_written_status status ≡ true }
    ensures told { IfOk result (λ reply. IsLaidOut (told status body.now) reply.status reply.bytes.items) }
    ensures read { status ≡ 200 → IfOk result (λ reply. IsReply reply.bytes.items body.now) }
{
    Ok(Reply {
        status,
        bytes: reply_bytes(alloc, status, body)?,
    })
}
