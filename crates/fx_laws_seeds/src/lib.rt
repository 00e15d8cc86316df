//! Laws of seeds: the rows that the runs of an OPTIONAL are asked with.
//!
//! Nothing here is called: each function is a law of the definitions in `fx_algebra`, which is its contract.
#![tactic(auto)]

ghost use Rattle.fx_laws_seeds.specs.Seeds.{OptionalRunHasTheRowsOnItsLeft, OtherOptionalsGoByThemselves};

/// Where the group of an OPTIONAL holds triple patterns and filters alone, these are one run, and the rows that enter it are those of the
/// elements in front of the OPTIONAL, without the filters of their group; the names before it are those that they bind.
pub fn optional_run_has_the_rows_on_its_left()
    ensures { OptionalRunHasTheRowsOnItsLeft }
{}

/// Any other group of an OPTIONAL is asked for as it would be by itself: from the one empty solution, with no name before it.
pub fn other_optionals_go_by_themselves()
    ensures { OtherOptionalsGoByThemselves }
{}
