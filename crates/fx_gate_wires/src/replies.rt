//! What a gate answers an exchange with.
ghost use Rattle.std.specs.Prelude.{◌≡◌, ◌<◌, ◌≤◌, IfOk, MatchBool, length, map, take};
ghost use Rattle.fx_outside.specs.MemoryLinks.{left_in};
ghost use Rattle.fx_traffic.specs.Gains.{seen};
ghost use Rattle.fx_gateway.specs.Connected.{federation};
ghost use Rattle.fx_gate_wires.specs.Gates.{AnswersOwn, Fails, FirstIsAfter, IsGivenBy, PassedOn, Passes};

use fx_alone::Alone;
use fx_gateway::{Gated, GatedReply, gated_reply_by};
use fx_outcomes::Options;
use fx_outside::{Endpoint, MemoryLink};
use fx_sources::{AskCache, Registry};
use fx_terms::Memory;
use fx_wire::{Wire, WireError};
use std::alloc::Global;

/// The reply to a request at the gate's own address, over the first of the wires, or none where the exchange fails.
pub(crate) fn own_reply<W: Wire>(
    alloc: Global,
    registry: &Registry,
    cache: &mut AskCache,
    options: Options,
    wires: &mut Vec<W>,
    request: &[u8],
    limit: u64,
) -> Result<Option<Vec<u8>>, Memory>
    requires wired { 0 < length wires.old.items }
    requires block { (0 < options.block) × (options.block ≤ 64) }
    ensures answered { AnswersOwn (federation (seen W.Wire (take 1 wires.old.items) (take 1 wires.new.items))
        registry.now cache.old cache.new options.block) request.now limit result }
    ensures after { FirstIsAfter (map W.seen wires.old.items) (map W.seen wires.new.items) }
{
    over_first(
        alloc,
        registry,
        cache,
        options,
        wires.as_mut_slice(),
        request,
        limit,
    )
}

fn over_first<W: Wire>(
    alloc: Global,
    registry: &Registry,
    cache: &mut AskCache,
    options: Options,
    wires: &mut [W],
    request: &[u8],
    limit: u64,
) -> Result<Option<Vec<u8>>, Memory>
    requires wired { 0 < length wires.old }
    requires block { (0 < options.block) × (options.block ≤ 64) }
    ensures answered { AnswersOwn (federation (seen W.Wire (take 1 wires.old) (take 1 wires.new))
        registry.now cache.old cache.new options.block) request.now limit result }
    ensures after { FirstIsAfter (map W.seen wires.old) (map W.seen wires.new) }
{
    let (first, _others) = wires.split_at_mut(1);
    gated_over(alloc, registry, cache, options, first, request, limit)
}

// So it is over one wire.
fn gated_over<W: Wire>(
    alloc: Global,
    registry: &Registry,
    cache: &mut AskCache,
    options: Options,
    wires: &mut [W],
    request: &[u8],
    limit: u64,
) -> Result<Option<Vec<u8>>, Memory>
    requires wired { (0 < length wires.old) × (length wires.old ≤ 16) }
    requires block { (0 < options.block) × (options.block ≤ 64) }
    ensures { AnswersOwn (federation (seen W.Wire wires.old wires.new) registry.now cache.old cache.new options.block) request.now limit result }
{
    let Ok(link) = link_with(alloc, request) else {
        return Err(Memory);
    };
    let mut link = link;
    match gated_reply_by(&Alone, alloc, registry, cache, options, wires, &mut link) {
        Ok(reply) => Ok(given_by(reply, limit)),
        // A link in memory whose reads are not to fail has no fault: what is left is want of memory.
        Err(_) => Err(Memory),
    }
}

// A link on which a request comes, and to which nothing will be written.
fn link_with(alloc: Global, request: &[u8]) -> Result<MemoryLink, Memory>
    ensures { IfOk result (λ link. left_in link ≡ request.now) }
{
    let input = Vec::from_slice(alloc, request)?;
    MemoryLink::new(alloc, input, 0, u64::MAX, Vec::new(alloc), Vec::new(alloc))
}

// The bytes of a reply, unless it fails or is too long.
fn given_by(reply: GatedReply, limit: u64) -> Option<Vec<u8>>
    ensures { IsGivenBy reply limit result }
{
    let GatedReply { gated, bytes } = reply;
    if has_passed(&gated) && bytes.len() as u64 <= limit {
        Some(bytes)
    } else {
        None
    }
}

// Whether no member failed or was left out.
fn has_passed(gated: &Gated) -> bool
    ensures { MatchBool result (Passes gated.now) (Fails gated.now) }
{
    gated.status != 502 && gated.abandoned.is_empty()
}

/// An exchange at another address, over the first of the wires.
pub(crate) fn passed_on<W: Wire>(
    alloc: Global,
    wires: &mut Vec<W>,
    at: &Endpoint,
    request: &[u8],
    limit: u64,
) -> Result<Vec<u8>, WireError>
    requires wired { 0 < length wires.old.items }
    requires limit { limit ≤ 134217728 }
    ensures { PassedOn (map W.seen wires.old.items) (map W.seen wires.new.items) at.now request.now limit result }
{
    passed_first(alloc, wires.as_mut_slice(), at, request, limit)
}

fn passed_first<W: Wire>(
    alloc: Global,
    wires: &mut [W],
    at: &Endpoint,
    request: &[u8],
    limit: u64,
) -> Result<Vec<u8>, WireError>
    requires wired { 0 < length wires.old }
    requires limit { limit ≤ 134217728 }
    ensures { PassedOn (map W.seen wires.old) (map W.seen wires.new) at.now request.now limit result }
{
    wires[0].exchange(alloc, at, request, limit)
}
