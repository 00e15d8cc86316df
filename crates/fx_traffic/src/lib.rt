//! What is sent: the requests of a query, as a bag over all wires of a call.
//!
//! Nothing here is called: each function is a law of the definitions in `specs/`, which is its contract.
#![tactic(auto)]

ghost use Rattle.fx_traffic.specs.Batches.{BatchLaws};
ghost use Rattle.fx_traffic.specs.Fewer.{FewerLaws};
ghost use Rattle.fx_traffic.specs.Gains.{GainLaws};
ghost use Rattle.fx_traffic.specs.Numbers.{StationsHaveTheNumbers};
ghost use Rattle.fx_traffic.specs.Planned.{PlannedLaws};
ghost use Rattle.fx_traffic.specs.Sent.{SentLaws};

/// What was sent adds up: of nothing, of one call after another, of two halves of the wires, in any order, and of a part.
pub fn sent_adds_up()
    ensures { SentLaws }
{}

/// What wires gained adds up: of nothing, of one call after another, and of two halves of the wires. Where they tell the graphs of all endpoints, they tell the
/// graph of each number.
pub fn gains_add_up()
    ensures { GainLaws }
{}

/// Rows that are cut are batches of these rows, as few as a step may have; a step makes of batches what it makes of their rows.
pub fn batches_are_of_the_rows()
    ensures { BatchLaws }
{}

/// Where some text is accepted as a query, the SERVICEs among its stations are its occurrences, numbered from 0 in text order.
pub fn stations_have_the_numbers()
    ensures { StationsHaveTheNumbers }
{}

/// Where some text is accepted as a query, each unit of the plan of each of its runs can be asked for, whatever members the patterns have, if
/// each has one and they rise by number; and with the sources that the patterns have in graphs, each is asked of all that have anything for
/// it. A unit's members are among those of the patterns, and the plan of a run has a unit.
pub fn planned_units_are_fit()
    ensures { PlannedLaws }
{}

/// What may be sent where some rows enter a run may be sent where more do, under whichever numbers, of units, under a plan and as a station.
pub fn more_rows_may_send_more()
    ensures { FewerLaws }
{}
