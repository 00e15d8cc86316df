//! What was found for the branches of a batch.
ghost use Rattle.std.specs.Prelude.{◌≡◌, IfOk};

use fx_algebra::Solution;
use fx_terms::Memory;
use std::alloc::Global;
use std::cmp::Ordering;

/// A solution that a member has for a branch: the number of the branch, and the solution merged with the branch's row.
#[derive(Drop)]
pub struct Found {
    pub branch: u32,
    pub solution: Solution,
}

impl Found {
    /// An equal value, which shares the texts.
    pub fn copy(&self, alloc: Global) -> Result<Found, Memory>
        ensures { IfOk result (λ copy. copy ≡ self.now) }
    {
        Ok(Found {
            branch: self.branch,
            solution: self.solution.copy(alloc)?,
        })
    }
}

// The order is by branch, and then as solutions.
impl PartialEq for Found {
    ghost use Rattle.std.specs.Ordering.{eq_by_cmp};
    ghost use Rattle.std.specs.Cmp.{partial_equiv_from_equiv};
    ghost use Rattle.std.proofs.lemmas.Cmp.{eq_by_cmp_equiv};
    ghost use Rattle.fx_founds.specs.FoundOrder.{found_cmp, founds_total};

    ghost eq = { eq_by_cmp found_cmp };

    ghost laws = { partial_equiv_from_equiv (eq_by_cmp_equiv founds_total) };

    fn eq(&self, other: &Found) -> bool {
        self.cmp(other) == Ordering::Equal
    }
}

impl Eq for Found {
    ghost use Rattle.std.proofs.lemmas.Cmp.{eq_by_cmp_equiv};
    ghost use Rattle.fx_founds.specs.FoundOrder.{founds_total};

    ghost laws = { eq_by_cmp_equiv founds_total };
}

impl Ord for Found {
    ghost use Rattle.std.proofs.Common.{refl};
    ghost use Rattle.fx_founds.specs.FoundOrder.{found_cmp, founds_total};

    ghost cmp = { found_cmp };

    ghost total = { founds_total };

    ghost matches_partial_cmp = { λ x y. refl };

    ghost matches_eq = { λ x y. refl };

    fn cmp(&self, other: &Found) -> Ordering {
        self.branch
            .cmp(&other.branch)
            .then_with(|| self.solution.cmp(&other.solution))
    }
}

impl PartialOrd for Found {
    ghost use Rattle.std.proofs.Common.{refl};
    ghost use Rattle.std.specs.Ordering.{as_partial_cmp};
    ghost use Rattle.std.specs.Cmp.{partial_order_from_agreeing_total};
    ghost use Rattle.fx_founds.specs.FoundOrder.{found_cmp, founds_total};

    ghost partial_cmp = { as_partial_cmp found_cmp };

    ghost laws = { partial_order_from_agreeing_total found_cmp founds_total (λ x y. refl) (λ x y. refl) };

    fn partial_cmp(&self, other: &Found) -> Option<Ordering> {
        Some(self.cmp(other))
    }
}
