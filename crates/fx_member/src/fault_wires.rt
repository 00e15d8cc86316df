//! A wire in memory whose exchanges fail where they are to.
ghost use Rattle.std.specs.Prelude.{◌≡◌, ◌≢◌, ◌+◌, ◌≤◌, ◌++◌, ◌∷◌, [], ℕ, List, IfOk, IfSome, IsErrOf, IsOkAnd, MatchResult, OnErr, OnOk, length, vec_len};
ghost use Rattle.std.specs.List.{list_any};
ghost use Rattle.fx_member.specs.FaultWires as spec;
ghost use Rattle.fx_member.specs.GraphWires.{IsFrontServed};
ghost use Rattle.fx_terms.specs.Graphs.{IsGraph};
ghost use Rattle.fx_wire.specs.Exchanges.{exchanged};
ghost use Rattle.fx_wire.specs.Honest.{IsHonest};

use crate::graph_wires::GraphWire;
use fx_outside::{Endpoint, NameCounts};
use fx_terms::{Iri, Memory};
use fx_wire::{Wire, WireError};
use std::alloc::{AllocError, Global};

/// A wire that answers by graphs, but fails at the exchanges that are to fail. An exchange is named by its number on the
/// wire, or by its address and its number there, from 1.
#[derive(Drop)]
pub struct FaultWire {
    wire: GraphWire,
    fails: Vec<u64>,
    fails_at: Vec<(Iri, u64)>,
    exchanges: u64,
    exchanges_at: NameCounts,
    faults: NameCounts,
}

impl FaultWire {
    /// The wire that fails at the exchanges whose numbers stand in `fails`, and at those whose address and number there
    /// stand in `fails_at`. It takes no memory, so `Memory` doesn't come: the answer is always `Ok`.
    pub fn new(
        alloc: Global,
        wire: GraphWire,
        fails: Vec<u64>,
        fails_at: Vec<(Iri, u64)>,
    ) -> Result<FaultWire, Memory>
        ensures { IsOkAnd result (λ made. spec.IsFreshWire made wire fails.items fails_at.items) }
    {
        Ok(FaultWire {
            wire,
            fails,
            fails_at,
            exchanges: 0,
            exchanges_at: NameCounts::new(alloc),
            faults: NameCounts::new(alloc),
        })
    }

    // Counts one more exchange at an address, and says whether it is to fail.
    fn counts_a_failure(&mut self, address: &Iri) -> Result<bool, AllocError>
        ensures wire { self.new.wire ≡ self.old.wire }
        ensures faults { self.new.faults ≡ self.old.faults }
        ensures failing { IfOk result (λ failing. failing ≡ spec.fails_next self.old address.now) }
        ensures after { OnOk result (spec.IsAfterExchange self.old self.new address.now) }
        ensures short { OnErr result (spec.IsUncounted self.old self.new) }
    {
        if self.exchanges == u64::MAX {
            return Err(AllocError);
        }
        let place = self.exchanges_at.place(address.text())?;
        let number = self.exchanges_at.raise(place);
        self.exchanges += 1;
        Ok(
            self.fails.contains(&self.exchanges)
                || is_failing(self.fails_at.as_slice(), address, number),
        )
    }
}

impl Wire for FaultWire {
    ghost use Rattle.std.specs.Prelude.{◌⊎◌, true, refl, false, None};
    ghost use Rattle.fx_member.specs.FaultWires.{faults_in, fails_next, graph_in, log_in, IsAfterExchange, IsUncounted};

    ghost tells_log = { true };

    ghost seen = { λ wire. record { tells_log = true; log = log_in wire; graph = graph_in wire; faults = faults_in wire } };

    ghost counts_alone = { true };

    ghost told = { λ _. refl };

    /// The first bytes of the reply that a member serves to a request: all of them where it has at most `limit` bytes, and
    /// else `limit + 1`.
    ///
    /// `Failed` comes exactly where the exchange is to fail, and where the address has no graph. `Memory` comes where memory
    /// runs out, or where a count stands at the end of `u64`: the exchange is counted or not then, and whichever of the later
    /// ones were to fail still are.
    fn exchange(
        &mut self,
        alloc: Global,
        at: &Endpoint,
        request: &[u8],
        limit: u64,
    ) -> Result<Vec<u8>, WireError>
        requires { limit ≤ 134217728 }
        ensures size { IfOk result (λ reply. vec_len reply ≤ limit + 1) }
        ensures logged { MatchResult result
            (λ reply. log_in self.new ≡ log_in self.old ++ exchanged at.now request.now reply.items ∷ [])
            (λ _. log_in self.new ≡ log_in self.old) }
        ensures honest { IfOk result (λ reply. IfSome (graph_in self.old at.now.iri) (λ told. IsGraph told × (length reply.items ≤ limit → IsHonest told request.now reply.items))) }
        ensures same { (address : List ℕ) → graph_in self.new address ≡ graph_in self.old address }
        ensures kept { (address : List ℕ) → faults_in self.old address ≤ faults_in self.new address }
        ensures counted { IsErrOf result WireError.Failed → faults_in self.new at.now.iri ≡ faults_in self.old at.now.iri + 1 }
        ensures faultless { ¬ IsErrOf result WireError.Failed → faults_in self.new at.now.iri ≡ faults_in self.old at.now.iri }
        ensures others { (address : List ℕ) → address ≢ at.now.iri → faults_in self.new address ≡ faults_in self.old address }
        ensures given { IfOk result (λ reply. IsFrontServed (graph_in self.old at.now.iri) request.now (limit + 1) reply.items) }
        ensures unfailing { OnOk result (fails_next self.old at.now.iri ≡ false) }
        ensures refused { IsErrOf result WireError.Failed → (fails_next self.old at.now.iri ≡ true) ⊎ (graph_in self.old at.now.iri ≡ None) }
        ensures after { ¬ IsErrOf result WireError.Memory → IsAfterExchange self.old self.new at.now.iri }
        ensures short { IsErrOf result WireError.Memory → IsAfterExchange self.old self.new at.now.iri ⊎ IsUncounted self.old self.new }
    {
        let place = self.faults.place(at.iri().text())?;
        if self.counts_a_failure(at.iri())? {
            self.faults.raise(place);
            return Err(WireError::Failed);
        }
        self.wire.exchange(alloc, at, request, limit)
    }
}

// Whether the exchange of this number at an address is to fail.
fn is_failing(fails_at: &[(Iri, u64)], address: &Iri, number: u64) -> bool
    ensures { result ≡ list_any (spec.names address.now number) fails_at.now }
{
    fails_at
        .iter()
        .any(|fails| fails.0 == *address && fails.1 == number)
}
