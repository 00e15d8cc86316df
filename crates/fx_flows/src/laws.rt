//! Laws of runs, each the contract of a function that does nothing.
ghost use Rattle.fx_flows.specs.FlowLaw.{FlowsAreKept};
ghost use Rattle.fx_flows.specs.RunLaws.{RunLaws};
ghost use Rattle.fx_flows.specs.Teams.{TeamLaws};

/// After every list of events by which the parcels of a run are put, taken and finished: what is done and what is owed are the rows behind
/// all units, and what the finished parcels send is what the run may send.
pub fn flows_are_kept()
    ensures { FlowsAreKept }
{}

/// A run of some units that has rows, and then one of others which these rows enter, is a run of all; so is one of some that was refused. What each may
/// send adds up to what all may.
pub fn runs_add_up()
    ensures { RunLaws }
{}

/// Over one wire what the members of a unit were asked for is as if they were asked one after another; and batches of a step that were asked for one after
/// another are batches of the step.
pub fn teams_add_up()
    ensures { TeamLaws }
{}
