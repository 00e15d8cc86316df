//! What was found for the branches of a batch of bound joins, and what several members told of these, each thing once. It knows no text.
#![tactic(auto)]

ghost use Rattle.fx_founds.specs.Unions.{MembersHaveTheUnion};
ghost use Rattle.fx_founds.specs.Uniting.{UnitedIsTheStep};

pub mod founds;
pub mod uniting;

pub use founds::Found;
pub use uniting::{each_once, unite_rows};

/// Where a unit is sound over graphs, what its members have beside a row, each solution once, is what the union of the graphs has.
pub fn members_have_the_union()
    ensures { MembersHaveTheUnion }
{}

/// Where a unit is sound over graphs, what its members have for the branches of rows unites to what the unit makes of the rows over the
/// union of the graphs.
pub fn united_is_the_step()
    ensures { UnitedIsTheStep }
{}
