//! Laws of plans, each the contract of a function that does nothing.
ghost use Rattle.fx_walks.specs.Laws.{RunsHaveThePatterns, UnitsAreFit, UnitsAreSound};

/// The patterns of a query's runs, one run after the other, are its triple patterns outside SERVICE, in text order.
pub fn runs_have_the_patterns()
    ensures { RunsHaveThePatterns }
{}

/// Where some text is accepted as a query, each unit of its plan can be asked for, whatever members its patterns have, if they rise
/// by number: it has a pattern and a member, no predicate is a literal, and each of its filters is one that a member can apply.
pub fn units_are_fit()
    ensures { UnitsAreFit }
{}

/// Where its patterns have the sources that they have in graphs, the members of each unit give all the rows that the union of the
/// graphs has for it: it is one pattern, asked of all its sources, or patterns that one member alone has anything for.
pub fn units_are_sound()
    ensures { UnitsAreSound }
{}
