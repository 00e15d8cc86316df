//! The steps of a run: what the units of its plan make of the rows that enter it.
//!
//! Nothing here is called: each function is a law of the definitions in `specs/`, which is its contract.
#![tactic(auto)]

ghost use Rattle.fx_steps.specs.Fewer.{FewerLaws};
ghost use Rattle.fx_steps.specs.Groups.{FiltersHoldAtTheEnd, PlanComesOut};
ghost use Rattle.fx_steps.specs.Optionals.{OptionalLaws};
ghost use Rattle.fx_steps.specs.Steps.{PlanIsOfTheRun, PlanIsTheJoin, StepsAreTheJoin};

/// The rows behind units, each of which has the variables of its filters, are those of the join of the seeds with the run that the
/// units are of, on which the units' filters hold, in some order.
pub fn steps_are_the_join()
    ensures { StepsAreTheJoin }
{}

/// A plan asks for each pattern of its run, as often as it stands there.
pub fn plan_is_of_the_run()
    ensures { PlanIsOfTheRun }
{}

/// The rows behind a plan are those of the join of the seeds with its run, on which the filters that it pushes hold, whatever the
/// sources of the patterns, and in whichever order the units are taken.
pub fn plan_is_the_join()
    ensures { PlanIsTheJoin }
{}

/// What the steps of a run's plan give is the join of the seeds with the run, on which some filters of the group hold that the run has all
/// variables of.
pub fn plan_comes_out()
    ensures { PlanComesOut }
{}

/// Where the runs of a group come out so, and its filters are applied at its end, its rows are those that the group has: filters that
/// were pushed into a run change nothing.
pub fn filters_hold_at_the_end()
    ensures { FiltersHoldAtTheEnd }
{}

/// Where rows that a filter of the group refuses, and goes on to refuse, are gone while a group is gone through, the rows behind its runs
/// and operators lack only such rows, and those on which its filters hold are the same.
pub fn fewer_rows_come_to_the_same()
    ensures { FewerLaws }
{}

/// The rows of an OPTIONAL whose group is one run, from what was found under the numbers of the rows on its left, are those of the left
/// join.
pub fn optional_rows_are_those_of_the_left_join()
    ensures { OptionalLaws }
{}
