//! Laws of a unit's patterns and filters with a row's terms in the places of the variables that the row binds, and another name for each
//! other variable. They know no text of a batch; each is the contract of a function that does nothing.
#![tactic(auto)]

ghost use Rattle.fx_renaming.specs.Branches.{BoundHasTheWords, BoundKeepsTheMeasure, BranchTellsItsRow, HopelessBranchHasNone};

/// The solutions of a branch over a graph tell what its row merges to with each solution of the unit's patterns that it agrees with
/// and on which the unit's filters hold, in their order.
pub fn branch_tells_its_row()
    ensures { BranchTellsItsRow }
{}

/// Where a row puts a literal in the place of a subject or of a predicate, it merges to nothing, so its branch may be left out.
pub fn hopeless_branch_has_none()
    ensures { HopelessBranchHasNone }
{}

/// A row's terms in an expression without BOUND open no bracket in its text, and the grammar has it as before.
pub fn bound_keeps_the_measure()
    ensures { BoundKeepsTheMeasure }
{}

/// A condition with a row's terms in it is printed in the words that it had, with a term or another name in the place of each variable.
pub fn bound_has_the_words()
    ensures { BoundHasTheWords }
{}
