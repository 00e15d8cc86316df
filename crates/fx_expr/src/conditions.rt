//! Conditions.
ghost use Rattle.std.specs.Prelude.{◌≡◌, IfOk};
ghost use Rattle.fx_algebra.specs.Conditions as spec;

use crate::values::truth_on;
use fx_algebra::{Expr, Solution};
use fx_terms::Memory;
use std::alloc::Global;

/// Whether every condition holds on a solution (SPARQL 1.1 section 17.2): the truth of its value is true, so it is neither false
/// nor the error. No condition behind the first that does not hold is looked at.
#[tactic(auto, unfolding(fx_algebra::specs::Conditions::holds))]
pub fn holds(alloc: Global, conditions: &[Expr], solution: &Solution) -> Result<bool, Memory>
    ensures { IfOk result (λ held. held ≡ spec.holds conditions.now solution.now) }
{
    for condition in conditions {
        match truth_on(alloc, condition, solution)? {
            Some(true) => {}
            Some(false) => return Ok(false),
            None => return Ok(false),
        }
    }
    Ok(true)
}
