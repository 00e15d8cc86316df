//! A wire in memory that answers by the SPARQL algebra over graphs.
ghost use Rattle.std.specs.Prelude.{◌≡◌, ◌≢◌, ◌<◌, ◌≤◌, ◌+◌, ◌++◌, ◌∷◌, [], Some, IfOk, IfSome, OnOk, OnErr, IsErrOf, MatchResult, List, ℕ, length, option_copied, take, vec_len};
ghost use Rattle.fx_member.specs.GraphWires as spec;
ghost use Rattle.fx_outside.specs.MemoryLinks.{left_in};
ghost use Rattle.fx_terms.specs.Graphs.{IsGraph};
ghost use Rattle.fx_wire.specs.Exchanges.{exchanged};
ghost use Rattle.fx_wire.specs.Honest.{IsHonest};

use crate::serving::{ServeError, prepare};
use fx_outside::{Endpoint, MemoryLink, NameCounts};
use fx_store::Store;
use fx_terms::{Graph, Iri, Memory};
use fx_wire::script_wires::Answered;
use fx_wire::{Wire, WireError};
use std::alloc::Global;

/// A wire in memory that answers each address by the SPARQL algebra over its graph, and tells its graphs and its log. An
/// address without a graph is a fault, and there is no other.
#[derive(Drop)]
pub struct GraphWire {
    stores: Vec<(Iri, Store)>,
    log: Vec<Answered>,
    faults: NameCounts,
}

impl GraphWire {
    /// The wire of these graphs, each for its address. No address is to stand twice: the first of equal addresses counts.
    /// `Memory` comes where memory runs out.
    pub fn new(alloc: Global, graphs: Vec<(Iri, Graph)>) -> Result<GraphWire, Memory>
        ensures { IfOk result (λ wire. spec.IsFreshWire wire graphs.items) }
    {
        Ok(GraphWire {
            stores: stores_of(alloc, graphs)?,
            log: Vec::new(alloc),
            faults: NameCounts::new(alloc),
        })
    }

    /// The exchanges that were answered, in order.
    pub fn log(&self) -> &[Answered]
        ensures { result.now ≡ spec.answered_in self.now }
    {
        self.log.as_slice()
    }

    // Keeps an exchange that was answered.
    fn keep(
        &mut self,
        alloc: Global,
        at: &Endpoint,
        request: &[u8],
        reply: &[u8],
    ) -> Result<(), Memory>
        ensures logged { OnOk result (spec.log_in self.new ≡ spec.log_in self.old ++ exchanged at.now request.now reply.now ∷ []) }
        ensures unlogged { OnErr result (spec.log_in self.new ≡ spec.log_in self.old) }
        ensures graphs { (address : List ℕ) → spec.graph_in self.new address ≡ spec.graph_in self.old address }
        ensures faults { (address : List ℕ) → spec.faults_in self.new address ≡ spec.faults_in self.old address }
    {
        let reply = Vec::from_slice(alloc, reply)?;
        let request = Vec::from_slice(alloc, request)?;
        let at = at.copy(alloc)?;
        self.log.push(Answered { at, request, reply })?;
        Ok(())
    }
}

impl Wire for GraphWire {
    ghost use Rattle.std.specs.Prelude.{true, refl, None};
    ghost use Rattle.fx_member.specs.GraphWires.{faults_in, graph_in, log_in, IsFrontServed};

    ghost tells_log = { true };

    ghost seen = { λ wire. record { tells_log = true; log = log_in wire; graph = graph_in wire; faults = faults_in wire } };

    ghost counts_alone = { true };

    ghost told = { λ _. refl };

    /// The first bytes of the reply that a member serves to a request: all of them where it has at most `limit` bytes, and
    /// else `limit + 1`.
    ///
    /// `Failed` comes exactly where the address has no graph. `Memory` comes where memory runs out, or where the count of
    /// faults of the address stands at the end of `u64`.
    fn exchange(
        &mut self,
        alloc: Global,
        at: &Endpoint,
        request: &[u8],
        limit: u64,
    ) -> Result<Vec<u8>, WireError>
        requires { limit ≤ 134217728 }
        ensures size { IfOk result (λ reply. vec_len reply ≤ limit + 1) }
        ensures logged { MatchResult result
            (λ reply. log_in self.new ≡ log_in self.old ++ exchanged at.now request.now reply.items ∷ [])
            (λ _. log_in self.new ≡ log_in self.old) }
        ensures honest { IfOk result (λ reply. IfSome (graph_in self.old at.now.iri) (λ told. IsGraph told × (length reply.items ≤ limit → IsHonest told request.now reply.items))) }
        ensures same { (address : List ℕ) → graph_in self.new address ≡ graph_in self.old address }
        ensures kept { (address : List ℕ) → faults_in self.old address ≤ faults_in self.new address }
        ensures counted { IsErrOf result WireError.Failed → faults_in self.new at.now.iri ≡ faults_in self.old at.now.iri + 1 }
        ensures faultless { ¬ IsErrOf result WireError.Failed → faults_in self.new at.now.iri ≡ faults_in self.old at.now.iri }
        ensures others { (address : List ℕ) → address ≢ at.now.iri → faults_in self.new address ≡ faults_in self.old address }
        ensures given { IfOk result (λ reply. IsFrontServed (graph_in self.old at.now.iri) request.now (limit + 1) reply.items) }
        ensures refused { IsErrOf result WireError.Failed → graph_in self.old at.now.iri ≡ None }
    {
        let place = self.faults.place(at.iri().text())?;
        let Some(store) = store_at(self.stores.as_slice(), at.iri()) else {
            self.faults.raise(place);
            return Err(WireError::Failed);
        };
        match front_of_reply(alloc, store, request, limit as usize + 1) {
            Ok(reply) => {
                self.keep(alloc, at, request, reply.as_slice())?;
                Ok(reply)
            }
            // A link in memory whose reads are not to fail has no fault: what is left is want of memory.
            Err(_) => Err(WireError::Memory),
        }
    }
}

// The store of the first pair with an address.
fn store_at<'a>(stores: &'a [(Iri, Store)], address: &Iri) -> Option<&'a Store>
    ensures { option_copied result ≡ spec.graph_of stores.now address.now }
{
    for pair in stores {
        if pair.0 == *address {
            return Some(&pair.1);
        }
    }
    None
}

// Each graph in a store of its own, at its address.
fn stores_of(alloc: Global, graphs: Vec<(Iri, Graph)>) -> Result<Vec<(Iri, Store)>, Memory>
    ensures { IfOk result (λ stores. stores.items ≡ graphs.items) }
{
    let mut stores = Vec::with_capacity(alloc, graphs.len())?;
    for (address, graph) in graphs {
        stores.push((address, Store::load(alloc, graph)?))?;
    }
    Ok(stores)
}

// The first bytes of the reply to a request, as one is served that comes over a link.
fn front_of_reply(
    alloc: Global,
    store: &Store,
    request: &[u8],
    most: usize,
) -> Result<Vec<u8>, ServeError>
    ensures size { IfOk result (λ reply. length reply.items ≤ most) }
    ensures graph { IsGraph store.now }
    ensures honest { IfOk result (λ reply. length reply.items < most → IsHonest store.now request.now reply.items) }
    ensures served { IfOk result (λ reply. spec.IsFrontServed (Some store.now) request.now most reply.items) }
{
    store.known();
    let mut link = link_with(alloc, request)?;
    let whole = prepare(alloc, store, &mut link)?;
    let front = front(alloc, whole.bytes, most)?;
    Ok(front)
}

// A link on which a request comes, and to which nothing will be written.
fn link_with(alloc: Global, request: &[u8]) -> Result<MemoryLink, Memory>
    ensures { IfOk result (λ link. left_in link ≡ request.now) }
{
    let input = Vec::from_slice(alloc, request)?;
    MemoryLink::new(alloc, input, 0, u64::MAX, Vec::new(alloc), Vec::new(alloc))
}

// The first bytes, or all of them.
fn front(alloc: Global, bytes: Vec<u8>, most: usize) -> Result<Vec<u8>, Memory>
    ensures size { IfOk result (λ front. length front.items ≤ most) }
    ensures whole { IfOk result (λ front. length front.items < most → front.items ≡ bytes.items) }
    ensures front { IfOk result (λ front. front.items ≡ take most bytes.items) }
{
    if bytes.len() <= most {
        return Ok(bytes);
    }
    Ok(Vec::from_slice(alloc, &bytes[..most])?)
}
