//! A wire that answers at its own address as a federation does.
ghost use Rattle.std.specs.Prelude.{◌≡◌, ◌≢◌, ◌<◌, ◌≤◌, ◌+◌, [], ℕ, List, All, IfOk, IfSome, IsErrOf, length, map, take, vec_len};
ghost use Rattle.fx_terms.specs.Graphs.{IsGraph};
ghost use Rattle.fx_traffic.specs.Gains.{seen};
ghost use Rattle.fx_wire.specs.Honest.{IsHonest};
ghost use Rattle.fx_gateway.specs.Connected.{federation};
ghost use Rattle.fx_gate_wires.specs.Gates.{FirstIsAfter, GivesOwn, IsGate, PassedOn};
ghost use Rattle.fx_gate_wires.specs.Told.{gate_seen};

use crate::replies::{own_reply, passed_on};
use fx_outcomes::Options;
use fx_outside::Endpoint;
use fx_sources::{AskCache, Registry};
use fx_terms::{Iri, Memory};
use fx_wire::{Wire, WireError};
use std::alloc::Global;

/// A wire that answers at its own address as a federation of the members of a registry does, which it asks over the first of its inner wires. So a federation can be a member of another.
///
/// At its own address it tells the union of the graphs of these members, where the first inner wire tells a graph of each. A reply in which a member failed, or was left out, isn't one over that union, and
/// so the exchange fails. Any other address goes to the first inner wire, whose graph and count of faults at that address it tells.
///
/// It keeps what the members answered to ASKs from one exchange to the next. Nothing is claimed of a gate whose registry leads back to itself.
#[derive(Drop)]
pub struct GateWire<W: Wire> {
    at: Iri,
    registry: Registry,
    cache: AskCache,
    options: Options,
    wires: Vec<W>,
    faults: u64,
    ghost known: { IsGate at registry cache options.block (map W.seen wires.items) },
}

impl<W: Wire + Drop> GateWire<W> {
    /// The gate at this address over the members of a registry, which hasn't that address: `Registry::find` tells. It has asked nobody yet. `Memory` comes where memory runs out.
    pub fn new(
        alloc: Global,
        at: Iri,
        registry: Registry,
        options: Options,
        wires: Vec<W>,
    ) -> Result<GateWire<W>, Memory>
        requires wired { (0 < length wires.items) × (length wires.items ≤ 16) }
        requires block { (0 < options.block) × (options.block ≤ 64) }
        requires apart { All (λ e. e.iri ≢ at) registry }
        ensures at { IfOk result (λ gate. (gate.at ≡ at) × (gate.registry ≡ registry) × (gate.options ≡ options)) }
        ensures wires { IfOk result (λ gate. gate.wires.items ≡ wires.items) }
        ensures fresh { IfOk result (λ gate. (gate.cache ≡ []) × (gate.faults ≡ 0)) }
    {
        let _known = registry.endpoints();
        Ok(GateWire {
            at,
            registry,
            cache: AskCache::new(alloc)?,
            options,
            wires,
            faults: 0,
        })
    }

    // An exchange at its own address.
    fn own(&mut self, alloc: Global, request: &[u8], limit: u64) -> Result<Vec<u8>, WireError>
        ensures settled { (self.new.at ≡ self.old.at) × (self.new.registry ≡ self.old.registry) × (self.new.options ≡ self.old.options) }
        ensures given { GivesOwn (federation (seen W.Wire (take 1 self.old.wires.items) (take 1 self.new.wires.items))
            self.old.registry self.old.cache self.new.cache self.old.options.block) request.now limit result }
        ensures after { FirstIsAfter (map W.seen self.old.wires.items) (map W.seen self.new.wires.items) }
        ensures kept { self.old.faults ≤ self.new.faults }
        ensures counted { IsErrOf result WireError.Failed → self.new.faults ≡ self.old.faults + 1 }
        ensures faultless { ¬ IsErrOf result WireError.Failed → self.new.faults ≡ self.old.faults }
    {
        if self.faults == u64::MAX {
            return Err(WireError::Memory);
        }
        match own_reply(
            alloc,
            &self.registry,
            &mut self.cache,
            self.options,
            &mut self.wires,
            request,
            limit,
        ) {
            Ok(Some(reply)) => Ok(reply),
            Ok(None) => {
                self.faults += 1;
                Err(WireError::Failed)
            }
            Err(Memory) => Err(WireError::Memory),
        }
    }

    // An exchange at another address.
    fn pass_on(
        &mut self,
        alloc: Global,
        at: &Endpoint,
        request: &[u8],
        limit: u64,
    ) -> Result<Vec<u8>, WireError>
        requires limit { limit ≤ 134217728 }
        ensures settled { (self.new.at ≡ self.old.at) × (self.new.registry ≡ self.old.registry) × (self.new.options ≡ self.old.options) }
        ensures kept { (self.new.cache ≡ self.old.cache) × (self.new.faults ≡ self.old.faults) }
        ensures passed { PassedOn (map W.seen self.old.wires.items) (map W.seen self.new.wires.items) at.now request.now limit result }
    {
        passed_on(alloc, &mut self.wires, at, request, limit)
    }
}

impl<W: Wire + Drop> Wire for GateWire<W> {
    ghost use Rattle.std.specs.Prelude.{false, map, refl};
    ghost use Rattle.fx_gate_wires.specs.Told.{gate_seen};

    ghost tells_log = { false };

    ghost seen = { λ gate. gate_seen gate.at gate.registry gate.faults (map W.seen gate.wires.items) };

    ghost counts_alone = { false };

    ghost told = { λ _. refl };

    /// At its own address the reply of the federation to the request. `Failed` comes exactly where that has the status 502, where a member was left out for it, or where it has more than `limit` bytes; this
    /// count is the gate's own.
    ///
    /// At any other address what the first inner wire gives. `Memory` comes where memory runs out, or where a count stands at the end of `u64`.
    fn exchange(
        &mut self,
        alloc: Global,
        at: &Endpoint,
        request: &[u8],
        limit: u64,
    ) -> Result<Vec<u8>, WireError>
        requires { limit ≤ 134217728 }
        ensures size { IfOk result (λ reply. vec_len reply ≤ limit + 1) }
        ensures honest { IfOk result (λ reply.
            IfSome ((gate_seen self.old.at self.old.registry self.old.faults (map W.seen self.old.wires.items)).graph at.now.iri)
            (λ told. IsGraph told × (length reply.items ≤ limit → IsHonest told request.now reply.items))) }
        ensures same { (address : List ℕ) → (gate_seen self.new.at self.new.registry self.new.faults (map W.seen self.new.wires.items)).graph address
            ≡ (gate_seen self.old.at self.old.registry self.old.faults (map W.seen self.old.wires.items)).graph address }
        ensures kept { (address : List ℕ) → (gate_seen self.old.at self.old.registry self.old.faults (map W.seen self.old.wires.items)).faults address
            ≤ (gate_seen self.new.at self.new.registry self.new.faults (map W.seen self.new.wires.items)).faults address }
        ensures counted { IsErrOf result WireError.Failed
            → (gate_seen self.new.at self.new.registry self.new.faults (map W.seen self.new.wires.items)).faults at.now.iri
            ≡ (gate_seen self.old.at self.old.registry self.old.faults (map W.seen self.old.wires.items)).faults at.now.iri + 1 }
        ensures faultless { ¬ IsErrOf result WireError.Failed
            → (gate_seen self.new.at self.new.registry self.new.faults (map W.seen self.new.wires.items)).faults at.now.iri
            ≡ (gate_seen self.old.at self.old.registry self.old.faults (map W.seen self.old.wires.items)).faults at.now.iri }
        ensures settled { (self.new.at ≡ self.old.at) × (self.new.registry ≡ self.old.registry) × (self.new.options ≡ self.old.options) }
        ensures own { at.now.iri ≡ self.old.at → GivesOwn (federation (seen W.Wire (take 1 self.old.wires.items) (take 1 self.new.wires.items))
            self.old.registry self.old.cache self.new.cache self.old.options.block) request.now limit result }
        ensures passed { at.now.iri ≢ self.old.at
            → PassedOn (map W.seen self.old.wires.items) (map W.seen self.new.wires.items) at.now request.now limit result }
        ensures unasked { at.now.iri ≢ self.old.at → (self.new.cache ≡ self.old.cache) × (self.new.faults ≡ self.old.faults) }
    {
        if at.iri().text() == self.at.text() {
            self.own(alloc, request, limit)
        } else {
            self.pass_on(alloc, at, request, limit)
        }
    }
}
