//! Laws of plans: which patterns a unit asks for, which unit comes next, and which filters go along with it.
//!
//! Nothing here is called: each function is a law of the definitions in `fx_plan`, which is its contract.
#![tactic(auto)]

ghost use Rattle.fx_laws_plans.specs.Rules.{FreeNamesAreFree, OnlyThePlanGoesByThem, PlanGoesByItsRules};

/// The units of a plan ask for each pattern of its run once. A member that is the only source of some patterns has one group, of all of them,
/// and each other pattern is a single. Each unit has fewer free variables than those behind it, or as many, and then a group comes before a
/// single, and of two of a kind the one whose first pattern comes first. A filter that may go along does so with the first unit, by the
/// place of its first pattern, whose patterns have all its variables, and with no other.
pub fn plan_goes_by_its_rules()
    ensures { PlanGoesByItsRules }
{}

/// No other list of units goes by these rules, with whatever spots for its units: so they say all of a plan.
pub fn only_the_plan_goes_by_them()
    ensures { OnlyThePlanGoesByThem }
{}

/// The variables of patterns that are free where some names are known: each that stands in the patterns and isn't known, once.
pub fn free_names_are_free()
    ensures { FreeNamesAreFree }
{}
