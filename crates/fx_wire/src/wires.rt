//! What a wire promises.
ghost use Rattle.std.specs.Prelude.{◌≡◌, ◌≢◌, ◌+◌, ◌≤◌, ◌++◌, [], ◌∷◌, Bool, List, ℕ, IsTrue, IsErrOf, IfOk, IfSome, MatchResult, length, vec_len};
ghost use Rattle.fx_terms.specs.Graphs.{IsGraph};
ghost use Rattle.fx_wire.specs.declared.wires.WireError.TheVariants.{Memory};
ghost use Rattle.fx_wire.specs.Exchanges.{Seen, exchanged};
ghost use Rattle.fx_wire.specs.Honest.{IsHonest};

use fx_outside::Endpoint;
use std::alloc::{AllocError, AllocFailed, Global};

/// Why an exchange has no reply.
#[derive(Clone, Copy, Debug, PartialEq, Eq)]
pub enum WireError {
    /// The endpoint wasn't reached, or the connection broke, and this was counted as a fault at its address.
    Failed,
    /// Memory ran out, or the count of faults at the address stands at the end of `u64`.
    Memory,
}

impl From<AllocError> for WireError {
    ghost from_gives = { λ _ e. e ≡ Memory };

    fn from(_error: AllocError) -> WireError {
        WireError::Memory
    }
}

impl<T: Drop> From<AllocFailed<T>> for WireError {
    ghost from_gives = { λ _ e. e ≡ Memory };

    fn from(_error: AllocFailed<T>) -> WireError {
        WireError::Memory
    }
}

impl From<fx_terms::Memory> for WireError {
    ghost from_gives = { λ _ e. e ≡ Memory };

    fn from(_error: fx_terms::Memory) -> WireError {
        WireError::Memory
    }
}

/// A wire exchanges requests for replies. An endpoint's address is its IRI.
pub trait Wire {
    /// Whether wires of this type tell their log.
    ghost tells_log: { Bool };

    /// What is known of the wire: whether it tells its log, the exchanges that were answered, in order, the graph of the endpoint
    /// at each address, where the wire tells it, and how often exchanges at each address have failed.
    ghost seen: { Self → Seen };

    /// Whether wires of this type count each address alone, so that an exchange counts nothing at another address than its own.
    ghost counts_alone: { Bool };

    /// Sends a request to an endpoint, and gives the first bytes of its reply: all of them where it has at most `limit`
    /// bytes, and else `limit + 1`.
    ///
    /// `Failed` counts exactly one more fault at the endpoint's address, and no other answer changes the count there. A wire that
    /// counts each address alone changes no count at another one. `Memory` comes where memory ran out, or where that count stands
    /// at the end of `u64`. No exchange changes a graph.
    fn exchange(
        &mut self,
        alloc: Global,
        at: &Endpoint,
        request: &[u8],
        limit: u64,
    ) -> Result<Vec<u8>, WireError>
        requires { limit ≤ 134217728 }
        ensures size { IfOk result (λ reply. vec_len reply ≤ limit + 1) }
        ensures logged { IsTrue (seen self.old).tells_log → MatchResult result
            (λ reply. (seen self.new).log ≡ (seen self.old).log ++ exchanged at.now request.now reply.items ∷ [])
            (λ _. (seen self.new).log ≡ (seen self.old).log) }
        ensures honest { IfOk result (λ reply. IfSome ((seen self.old).graph at.now.iri) (λ told. IsGraph told × (length reply.items ≤ limit → IsHonest told request.now reply.items))) }
        ensures same { (address : List ℕ) → (seen self.new).graph address ≡ (seen self.old).graph address }
        ensures kept { (address : List ℕ) → (seen self.old).faults address ≤ (seen self.new).faults address }
        ensures counted { IsErrOf result WireError.Failed → (seen self.new).faults at.now.iri ≡ (seen self.old).faults at.now.iri + 1 }
        ensures faultless { ¬ IsErrOf result WireError.Failed → (seen self.new).faults at.now.iri ≡ (seen self.old).faults at.now.iri }
        ensures others { IsTrue counts_alone → (address : List ℕ) → address ≢ at.now.iri → (seen self.new).faults address ≡ (seen self.old).faults address };

    /// Each wire tells its log where wires of its type do.
    ghost told: { (wire : Self) → (seen wire).tells_log ≡ tells_log };
}
