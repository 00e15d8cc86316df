//! Probes of members.
ghost use Rattle.std.specs.Prelude.{◌≡◌, IfOk};

use crate::keys::AskKey;
use fx_terms::Memory;
use std::alloc::Global;
use std::hash::{Hash, Hasher};

/// A question to a member, by its number: whether a key fits its graph.
#[derive(Drop)]
pub struct Probe {
    pub at: u32,
    pub key: AskKey,
}

impl Probe {
    /// An equal probe, which shares the texts.
    pub fn copy(&self, alloc: Global) -> Result<Probe, Memory>
        ensures { IfOk result (λ copy. copy ≡ self.now) }
    {
        Ok(Probe {
            at: self.at,
            key: self.key.copy(alloc)?,
        })
    }
}

impl PartialEq for Probe {
    ghost use Rattle.std.specs.Cmp.{decided, partial_equiv_from_equiv};
    ghost use Rattle.fx_keys.specs.Probes.{same_probe, probes_decide};

    ghost eq = { same_probe };

    ghost laws = { partial_equiv_from_equiv (decided same_probe probes_decide) };

    fn eq(&self, other: &Probe) -> bool {
        self.at == other.at && self.key == other.key
    }
}

impl Eq for Probe {
    ghost use Rattle.std.specs.Cmp.{decided};
    ghost use Rattle.fx_keys.specs.Probes.{same_probe, probes_decide};

    ghost laws = { decided same_probe probes_decide };
}

impl Hash for Probe {
    ghost use Rattle.std.proofs.Common.{ap};
    ghost use Rattle.fx_keys.specs.Probes.{probe_writes, probes_decide};

    ghost hash_input = { probe_writes };

    ghost respects_eq = { λ x y h. ap probe_writes ((probes_decide x y).0 h) };

    fn hash<H: Hasher>(&self, state: &mut H) {
        self.at.hash(state);
        self.key.hash(state);
    }
}
