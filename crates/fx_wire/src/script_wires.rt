//! A wire in memory that answers by a script.
ghost use Rattle.std.specs.Prelude.{◌≡◌, ◌≢◌, ◌+◌, ◌∷◌, ◌<◌, ◌≤◌, ◌++◌, [], ℕ, List, IfOk, IfSome, IsErrOf, IsOkAnd, MatchResult, OnOk, length, position, vec_len};
ghost use Rattle.fx_wire.specs.Scripts as spec;
ghost use Rattle.fx_wire.specs.Exchanges.{exchanged};

use crate::wires::{Wire, WireError};
use fx_outside::{Endpoint, NameCounts};
use fx_terms::{Iri, Memory};
use std::alloc::Global;

/// An exchange that was answered.
#[derive(Debug, Drop)]
pub struct Answered {
    pub at: Endpoint,
    pub request: Vec<u8>,
    pub reply: Vec<u8>,
}

/// A wire in memory that answers each address by its replies in order, and tells its log. An address without a further reply
/// is a fault.
#[derive(Debug, Drop)]
pub struct ScriptWire {
    replies: Vec<(Iri, Vec<u8>)>,
    log: Vec<Answered>,
    faults: NameCounts,
}

impl ScriptWire {
    /// The wire that has these replies, each for its address. It takes no memory, so `Memory` doesn't come: the answer is
    /// always `Ok`.
    pub fn new(alloc: Global, replies: Vec<(Iri, Vec<u8>)>) -> Result<ScriptWire, Memory>
        ensures { IsOkAnd result (λ wire. spec.IsFreshWire wire replies.items) }
    {
        Ok(ScriptWire {
            replies,
            log: Vec::new(alloc),
            faults: NameCounts::new(alloc),
        })
    }

    /// The exchanges that were answered, in order.
    pub fn log(&self) -> &[Answered]
        ensures { result.now ≡ spec.answered_in self.now }
    {
        self.log.as_slice()
    }
}

impl Wire for ScriptWire {
    ghost use Rattle.std.specs.Prelude.{true, refl, None, Some};
    ghost use Rattle.fx_wire.specs.Scripts.{log_in, faults_in, next_front, IsAfterFault, IsAfterReply, IsUntouched};

    ghost tells_log = { true };

    ghost seen = { λ wire. record { tells_log = true; log = log_in wire; graph = λ _. None; faults = faults_in wire } };

    ghost counts_alone = { true };

    ghost told = { λ _. refl };

    /// The first bytes of the next reply of the endpoint's address: all of them where it has at most `limit` bytes, and else
    /// `limit + 1`.
    ///
    /// `Failed` comes exactly where the address has no further reply. `Memory` comes where memory runs out, or where the count
    /// of faults of the address stands at the end of `u64`: the reply is still left then.
    fn exchange(
        &mut self,
        alloc: Global,
        at: &Endpoint,
        request: &[u8],
        limit: u64,
    ) -> Result<Vec<u8>, WireError>
        requires { limit ≤ 134217728 }
        ensures size { IfOk result (λ reply. vec_len reply ≤ limit + 1) }
        ensures logged { MatchResult result
            (λ reply. log_in self.new ≡ log_in self.old ++ exchanged at.now request.now reply.items ∷ [])
            (λ _. log_in self.new ≡ log_in self.old) }
        ensures kept { (address : List ℕ) → faults_in self.old address ≤ faults_in self.new address }
        ensures counted { IsErrOf result WireError.Failed → faults_in self.new at.now.iri ≡ faults_in self.old at.now.iri + 1 }
        ensures faultless { ¬ IsErrOf result WireError.Failed → faults_in self.new at.now.iri ≡ faults_in self.old at.now.iri }
        ensures others { (address : List ℕ) → address ≢ at.now.iri → faults_in self.new address ≡ faults_in self.old address }
        ensures given { IfOk result (λ reply. next_front self.old at.now.iri limit ≡ Some reply.items) }
        ensures refused { IsErrOf result WireError.Failed → next_front self.old at.now.iri limit ≡ None }
        ensures taken { OnOk result (IsAfterReply self.old self.new at.now.iri) }
        ensures faulty { IsErrOf result WireError.Failed → IsAfterFault self.old self.new at.now.iri }
        ensures untouched { IsErrOf result WireError.Memory → IsUntouched self.old self.new }
    {
        let place = self.faults.place(at.iri().text())?;
        let Some(next) = next_reply(self.replies.as_slice(), at.iri()) else {
            self.faults.raise(place);
            return Err(WireError::Failed);
        };
        let whole = self.replies[next].1.as_slice();
        let front = &whole[..whole.len().min(limit as usize + 1)];
        let reply = Vec::from_slice(alloc, front)?;
        let kept = Vec::from_slice(alloc, front)?;
        let request = Vec::from_slice(alloc, request)?;
        let at = at.copy(alloc)?;
        self.log.push(Answered {
            at,
            request,
            reply: kept,
        })?;
        self.replies.remove(next);
        Ok(reply)
    }
}

// The place of the first reply for an address.
fn next_reply(replies: &[(Iri, Vec<u8>)], address: &Iri) -> Option<usize>
    ensures place { result ≡ position (spec.is_for address.now) replies.now }
    ensures within { IfSome result (λ place. place < length replies.now) }
{
    replies.iter().position(|reply| reply.0 == *address)
}
