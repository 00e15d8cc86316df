//! Serving one connection by a federation.
ghost use Rattle.std.specs.Prelude.{◌≡◌, ◌≢◌, ◌<◌, ◌≤◌, Err, IsTrue, length};
ghost use Rattle.fx_grammar.specs.Accepted.{IsSpellable};
ghost use Rattle.fx_http.specs.Requests.{TakesOfRequest};
ghost use Rattle.fx_outside.specs.Faults.{HasRisen};
ghost use Rattle.fx_traffic.specs.Gains.{seen};
ghost use Rattle.fx_gateway.specs.Connected.{Connected, IsWriteFault, federation, link_seen};
ghost use Rattle.fx_gateway.specs.Steps.{IsAskedReply, IsPrepared, IsWritten, unreplied};

use crate::connections::{GateError, Gated, GatedReply};
use crate::replies::{federated_reply, unasked_reply};
use crate::requests::{Received, read_query};
use fx_algebra::Query;
use fx_engine::{federate, federate_by};
use fx_member::ServeError;
use fx_outcomes::Options;
use fx_outside::{Sink, Source, WriteFailed, write_all};
use fx_services::DoesJobs;
use fx_side_by_side::DoesFlows;
use fx_sources::{AskCache, Registry};
use fx_terms::Memory;
use fx_wire::Wire;
use std::alloc::Global;
use std::sync::Wait;
use std::thread::Threads;

/// Reads one request from a link, asks the members of a registry for its query, and writes the whole reply to the link (SPARQL 1.1 Protocol, 2.1). What is behind the request isn't read, also where
/// it is refused.
///
/// A request or a text is refused as `fx_member::serve_one` refuses it, with the same replies, and then nothing is asked. A query may have SERVICEs. It is asked in rounds: a member that is marked as
/// optional is left out where it fails. The status is 200 with the results; 400 with `UnknownService` where a SERVICE without SILENT names no endpoint; and 502 with `Member`, `Service`, `BadReply` or
/// `RequestTooLong` where an endpoint failed that mustn't be left out, each on a line. `fault` has the refusal itself.
///
/// `ReadFault` comes where a read failed: nothing is asked and nothing written then. `WriteFault` comes where a write failed: a front of the reply is written then. `Memory` comes where memory runs
/// out, and nothing is written then.
pub fn serve_connection<R: Threads + Wait + Sync, W: Wire + Send, L: Source + Sink>(
    rt: &R,
    alloc: Global,
    registry: &Registry,
    cache: &mut AskCache,
    options: Options,
    wires: &mut [W],
    link: &mut L,
) -> Result<Gated, GateError>
    requires wired { (0 < length wires.old) × (length wires.old ≤ 16) }
    requires block { (0 < options.block) × (options.block ≤ 64) }
    ensures connected { Connected (link_seen L.Ends link.old) (link_seen L.Ends link.new)
        (federation (seen W.Wire wires.old wires.new) registry.now cache.old cache.new options.block) result }
    ensures within { IsTrue L.tells_left → TakesOfRequest (L.left link.old) (L.left link.new) }
    ensures kept_reads { L.read_faults link.old ≤ L.read_faults link.new }
    ensures kept_writes { L.write_faults link.old ≤ L.write_faults link.new }
    ensures faultless_reads { result ≢ Err GateError.ReadFault → L.read_faults link.new ≡ L.read_faults link.old }
    ensures faultless_writes { ¬ IsWriteFault result → L.write_faults link.new ≡ L.write_faults link.old }
{
    match gated_reply(rt, alloc, registry, cache, options, wires, link) {
        Ok(reply) => write_reply(reply, link),
        Err(error) => Err(unreplied(error)),
    }
}

/// The same, with the members asked as these hands ask them.
pub fn serve_connection_by<H: DoesJobs<W> + DoesFlows<W>, W: Wire, L: Source + Sink>(
    hands: &H,
    alloc: Global,
    registry: &Registry,
    cache: &mut AskCache,
    options: Options,
    wires: &mut [W],
    link: &mut L,
) -> Result<Gated, GateError>
    requires hands { H.does hands.now × H.flows hands.now }
    requires wired { (0 < length wires.old) × (length wires.old ≤ 16) }
    requires block { (0 < options.block) × (options.block ≤ 64) }
    ensures connected { Connected (link_seen L.Ends link.old) (link_seen L.Ends link.new)
        (federation (seen W.Wire wires.old wires.new) registry.now cache.old cache.new options.block) result }
    ensures within { IsTrue L.tells_left → TakesOfRequest (L.left link.old) (L.left link.new) }
    ensures kept_reads { L.read_faults link.old ≤ L.read_faults link.new }
    ensures kept_writes { L.write_faults link.old ≤ L.write_faults link.new }
    ensures faultless_reads { result ≢ Err GateError.ReadFault → L.read_faults link.new ≡ L.read_faults link.old }
    ensures faultless_writes { ¬ IsWriteFault result → L.write_faults link.new ≡ L.write_faults link.old }
{
    match gated_reply_by(hands, alloc, registry, cache, options, wires, link) {
        Ok(reply) => write_reply(reply, link),
        Err(error) => Err(unreplied(error)),
    }
}

/// The whole reply to the request that a source begins with, as `serve_connection` writes it. `WriteFault` doesn't come.
pub fn gated_reply<R: Threads + Wait + Sync, W: Wire + Send, S: Source>(
    rt: &R,
    alloc: Global,
    registry: &Registry,
    cache: &mut AskCache,
    options: Options,
    wires: &mut [W],
    source: &mut S,
) -> Result<GatedReply, ServeError>
    requires wired { (0 < length wires.old) × (length wires.old ≤ 16) }
    requires block { (0 < options.block) × (options.block ≤ 64) }
    ensures prepared { IsPrepared (link_seen S.Ends source.old)
        (federation (seen W.Wire wires.old wires.new) registry.now cache.old cache.new options.block) result }
    ensures within { IsTrue S.tells_left → TakesOfRequest (S.left source.old) (S.left source.new) }
    ensures kept { S.read_faults source.old ≤ S.read_faults source.new }
    ensures failed { result ≡ Err ServeError.ReadFault → HasRisen (S.read_faults source.old) (S.read_faults source.new) }
    ensures faultless { result ≢ Err ServeError.ReadFault → S.read_faults source.new ≡ S.read_faults source.old }
    ensures held { IsTrue S.tells_held → S.held source.new ≡ S.held source.old }
    ensures writes { S.write_faults source.new ≡ S.write_faults source.old }
{
    match read_query(alloc, source) {
        Ok(Received::Asks(query)) => Ok(asked_reply(
            rt,
            alloc,
            query.get(),
            registry,
            cache,
            options,
            wires,
        )?),
        Ok(Received::Refused(reply)) => Ok(unasked_reply(alloc, reply)),
        Err(error) => Err(error),
    }
}

/// The same, with the members asked as these hands ask them.
pub fn gated_reply_by<H: DoesJobs<W> + DoesFlows<W>, W: Wire, S: Source>(
    hands: &H,
    alloc: Global,
    registry: &Registry,
    cache: &mut AskCache,
    options: Options,
    wires: &mut [W],
    source: &mut S,
) -> Result<GatedReply, ServeError>
    requires hands { H.does hands.now × H.flows hands.now }
    requires wired { (0 < length wires.old) × (length wires.old ≤ 16) }
    requires block { (0 < options.block) × (options.block ≤ 64) }
    ensures prepared { IsPrepared (link_seen S.Ends source.old)
        (federation (seen W.Wire wires.old wires.new) registry.now cache.old cache.new options.block) result }
    ensures within { IsTrue S.tells_left → TakesOfRequest (S.left source.old) (S.left source.new) }
    ensures kept { S.read_faults source.old ≤ S.read_faults source.new }
    ensures failed { result ≡ Err ServeError.ReadFault → HasRisen (S.read_faults source.old) (S.read_faults source.new) }
    ensures faultless { result ≢ Err ServeError.ReadFault → S.read_faults source.new ≡ S.read_faults source.old }
    ensures held { IsTrue S.tells_held → S.held source.new ≡ S.held source.old }
    ensures writes { S.write_faults source.new ≡ S.write_faults source.old }
{
    match read_query(alloc, source) {
        Ok(Received::Asks(query)) => Ok(asked_reply_by(
            hands,
            alloc,
            query.get(),
            registry,
            cache,
            options,
            wires,
        )?),
        Ok(Received::Refused(reply)) => Ok(unasked_reply(alloc, reply)),
        Err(error) => Err(error),
    }
}

// The reply to a query.
fn asked_reply<R: Threads + Wait + Sync, W: Wire + Send>(
    rt: &R,
    alloc: Global,
    query: &Query,
    registry: &Registry,
    cache: &mut AskCache,
    options: Options,
    wires: &mut [W],
) -> Result<GatedReply, Memory>
    requires wired { (0 < length wires.old) × (length wires.old ≤ 16) }
    requires block { (0 < options.block) × (options.block ≤ 64) }
    requires spellable { IsSpellable query.now }
    ensures { IsAskedReply (federation (seen W.Wire wires.old wires.new) registry.now cache.old cache.new options.block) query.now result }
{
    let given = federate(rt, alloc, query, registry, cache, options, wires);
    federated_reply(alloc, given)
}

fn asked_reply_by<H: DoesJobs<W> + DoesFlows<W>, W: Wire>(
    hands: &H,
    alloc: Global,
    query: &Query,
    registry: &Registry,
    cache: &mut AskCache,
    options: Options,
    wires: &mut [W],
) -> Result<GatedReply, Memory>
    requires hands { H.does hands.now × H.flows hands.now }
    requires wired { (0 < length wires.old) × (length wires.old ≤ 16) }
    requires block { (0 < options.block) × (options.block ≤ 64) }
    requires spellable { IsSpellable query.now }
    ensures { IsAskedReply (federation (seen W.Wire wires.old wires.new) registry.now cache.old cache.new options.block) query.now result }
{
    let given = federate_by(hands, alloc, query, registry, cache, options, wires);
    federated_reply(alloc, given)
}

// Writes a reply.
fn write_reply<L: Sink>(reply: GatedReply, link: &mut L) -> Result<Gated, GateError>
    ensures written { IsWritten (link_seen L.Ends link.old) (link_seen L.Ends link.new) reply result }
    ensures kept { L.write_faults link.old ≤ L.write_faults link.new }
    ensures faultless { ¬ IsWriteFault result → L.write_faults link.new ≡ L.write_faults link.old }
    ensures left { IsTrue L.tells_left → L.left link.new ≡ L.left link.old }
    ensures reads { L.read_faults link.new ≡ L.read_faults link.old }
{
    let GatedReply { gated, bytes } = reply;
    match write_all(link, bytes.as_slice()) {
        Ok(()) => Ok(gated),
        Err(WriteFailed) => Err(GateError::WriteFault { gated }),
    }
}

// Why there is no reply.
fn unreplied(error: ServeError) -> GateError
    ensures { result ≡ unreplied error }
{
    match error {
        ServeError::ReadFault => GateError::ReadFault,
        ServeError::WriteFault | ServeError::Memory => GateError::Memory,
    }
}
