//! Laws of the definitions, each the contract of a function that does nothing.
ghost use Rattle.fx_plan.specs.Laws.{FiltersAreOwn, NoSourceIsLeftOut, UnitsAreOfTheRun};

/// Each unit of a plan is a group, whose patterns all have its one member as their only source, or a single, whose members are
/// the sources of its one pattern.
pub fn units_are_of_the_run()
    ensures { UnitsAreOfTheRun }
{}

/// Where the sources of each pattern are the members whose graph it fits, the member of a group is the only source of each of
/// its patterns, and a single has all sources of its pattern.
pub fn no_source_is_left_out()
    ensures { NoSourceIsLeftOut }
{}

/// Each filter of a unit may be pushed, and the unit's patterns hold all its variables.
pub fn filters_are_own()
    ensures { FiltersAreOwn }
{}
