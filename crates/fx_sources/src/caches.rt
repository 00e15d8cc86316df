//! What members answered to ASK.
ghost use Rattle.std.specs.Prelude.{◌≡◌, ◌≢◌, ◌≤◌, ◌==◌, ◌⊎◌, [], ◌∷◌, All, AllPairs, Contains, IfOk, OnErr, OnOk, false, length, take};
ghost use Rattle.std.specs.List.{zip};
ghost use Rattle.fx_sources.specs.Probes as spec;

use fx_keys::Probe;
use fx_terms::Memory;
use lru::LruCache;
use std::alloc::Global;
use std::marker::Model;
use std::num::NonZeroUsize;

/// The newest answers to ASK, 4,096 at most. Contracts see the list of its entries, the newest first: each is a probe, and
/// whether the member's answer was yes.
#[derive(Drop)]
pub struct AskCache {
    entries: LruCache<Probe, bool>,
}

impl Model for AskCache {
    ghost use Rattle.std.specs.Prelude.{List, ◌≡◌, Bool};
    ghost use Rattle.fx_keys.specs.declared.probes.Probe.{Probe as TheProbe};

    ghost Value = { List (TheProbe × Bool) };

    ghost view = { λ c. c.entries.entries };

    ghost invariant = { λ c. c.entries.cap ≡ 4096 };
}

impl AskCache {
    /// A cache that holds nothing.
    pub fn new(alloc: Global) -> Result<AskCache, Memory>
        ensures { IfOk result (λ cache. cache ≡ []) }
    {
        let most = NonZeroUsize::new(4096).unwrap();
        Ok(AskCache {
            entries: LruCache::sparse(alloc, most)?,
        })
    }

    /// How many entries it holds: 4,096 at most.
    pub fn len(&self) -> usize
        ensures count { result ≡ length self.now }
        ensures fits { length self.now ≤ 4096 }
    {
        self.entries.len()
    }

    /// Whether it holds nothing.
    pub fn is_empty(&self) -> bool
        ensures { result ≡ (length self.now == 0) }
    {
        self.entries.len() == 0
    }

    /// What the member answered, where the cache holds it. It takes no memory, and the order of the entries stays.
    pub fn known(&self, probe: &Probe) -> Option<bool>
        ensures { result ≡ spec.known self.now probe.now }
    {
        self.entries.peek(probe).copied()
    }

    /// Takes in what members answered to probes, each of them new: the last becomes the newest entry. The oldest entries go
    /// where there are more than 4,096. After want of memory each entry was held before, or is one of the pairs.
    pub fn learn(&mut self, probes: Vec<Probe>, truths: &[bool]) -> Result<(), Memory>
        requires lengths { length probes.items ≡ length truths.now }
        requires distinct { AllPairs ◌≢◌ probes.items }
        requires news { All (λ p. spec.is_held self.old p ≡ false) probes.items }
        ensures learned { OnOk result (self.new ≡ spec.learned self.old probes.items truths.now) }
        ensures kept { OnErr result (All (λ e. Contains self.old e ⊎ Contains (zip probes.items truths.now) e) self.new) }
    {
        let _held = self.len();
        for (probe, truth) in probes.into_iter().zip(truths) {
            self.put(probe, *truth)?;
        }
        Ok(())
    }

    // One more entry in front.
    fn put(&mut self, probe: Probe, truth: bool) -> Result<(), Memory>
        requires { spec.is_held self.old probe ≡ false }
        ensures ok { OnOk result (self.new ≡ take 4096 ((probe, truth) ∷ self.old)) }
        ensures err { OnErr result (self.new ≡ self.old) }
    {
        self.entries.put(probe, truth)?;
        Ok(())
    }
}
