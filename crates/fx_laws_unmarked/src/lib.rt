//! Laws of federations without marks: where no member may be left out, a query that was asked in rounds was asked in one, of all members.
//!
//! Nothing here is called: each function is a law of the definitions in `fx_outcomes`, which is its contract.
#![tactic(auto)]

ghost use Rattle.fx_laws_unmarked.specs.Unmarked.{UnmarkedAreFederated, UnmarkedArePlanned};

/// Where no member is marked as optional, all that is known of a query that is asked in one round, of all members, holds of one that was asked in rounds: what was exchanged and the cause of a refusal
/// in their order, its traffic over the graphs of all members, its answer over their union, and that the cache learned each answer.
pub fn unmarked_are_federated()
    ensures { UnmarkedAreFederated }
{}

/// The same of a plan.
pub fn unmarked_are_planned()
    ensures { UnmarkedArePlanned }
{}
