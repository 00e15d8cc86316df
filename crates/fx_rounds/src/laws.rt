//! Laws of queries that were asked in rounds, each the contract of a function that does nothing.
ghost use Rattle.fx_rounds.specs.Answered.{AnswersRestOnThis, FaultsAreTold, PlansCountNone, PlansRestOnThis};
ghost use Rattle.fx_rounds.specs.Counts.{LicencesCount, NumbersAreTold};
ghost use Rattle.fx_rounds.specs.Gained.{EachLogIsInTurn, RoundsGainInTurn, RoundsHaveGained};
ghost use Rattle.fx_rounds.specs.LeftOut.{AnswersWent, KeptAreAsked, MembersAreLeftOnce, NobodyIsLeft};
ghost use Rattle.fx_rounds.specs.Licences.{AnswersAreLicensed, LicencesInAnyOrder};
ghost use Rattle.fx_rounds.specs.Refused.{MembersFailed, NoPlanServiceFails, PlanMembersFailed, ServicesFailed};
ghost use Rattle.fx_rounds.specs.Sums.{FaultsAndRefusalsAreEnough};
ghost use Rattle.fx_rounds.specs.Traffic.{RoundsAreTraffic};

/// What was exchanged in all, where wires tell it: the ASKs, each round that was abandoned, and the last one. What that leaves of the wires
/// is what exchanges leave of them.
pub fn rounds_have_gained()
    ensures { RoundsHaveGained }
{}

/// Where the wires tell their logs, these gained the ASKs first, then each round that was abandoned, and then the last one.
pub fn rounds_gain_in_turn()
    ensures { RoundsGainInTurn }
{}

/// So one wire's log gained a part of the ASKs, then of each round that was abandoned, and then of the last one.
pub fn each_log_is_in_turn()
    ensures { EachLogIsInTurn }
{}

/// Where there is an answer, the ASKs were asked, and then the rounds.
pub fn answers_went()
    ensures { AnswersWent }
{}

/// With an answer, no member is left out twice, each that is left out may be, and the members that are kept at last are those that no
/// round left out.
pub fn members_are_left_once()
    ensures { MembersAreLeftOnce }
{}

/// Where no member may be left out, nobody is, and no round is abandoned.
pub fn nobody_is_left()
    ensures { NobodyIsLeft }
{}

/// Each batch that a round asks for is for a member that is kept in it.
pub fn kept_are_asked()
    ensures { KeptAreAsked }
{}

/// In another order exchanges license as much.
pub fn licences_in_any_order()
    ensures { LicencesInAnyOrder }
{}

/// With an answer, whatever was left out or is down since an exchange failed has its fault, counted in the call at its address; and whatever
/// was or is for a bad reply has an exchange of the call, by itself, that asks for something of the query and got this reply, which is bad for it.
pub fn answers_are_licensed()
    ensures { AnswersAreLicensed }
{}

/// So many members are left out and occurrences down at an address as exchanges failed there and exchanges have a bad reply.
pub fn licences_count()
    ensures { LicencesCount }
{}

/// Of a round that was abandoned the numbers of occurrences are told alone. One of these that asks an endpoint for a text which isn't too
/// long was down since its exchange failed or its reply was bad.
pub fn numbers_are_told()
    ensures { NumbersAreTold }
{}

/// With an answer, the faults that were counted at an address and the exchanges there that have a bad reply are, together, at least as many as the members that were left out and the occurrences that are down
/// there for such a reason, and the occurrences that were down in rounds that were abandoned.
pub fn faults_and_refusals_are_enough()
    ensures { FaultsAndRefusalsAreEnough }
{}

/// Where the graphs are told, each round sent a part of the query's traffic over the graphs of the members that were kept in it, and no ASK.
pub fn rounds_are_traffic()
    ensures { RoundsAreTraffic }
{}

/// With an answer of a call with a new cache: who is left out and who is kept, what is down, what was exchanged round by round, and that no more
/// is told as failed than faults were counted. Where graphs are told, the answer is that over the union of the graphs of the members that are kept.
pub fn answers_rest_on_this()
    ensures { AnswersRestOnThis }
{}

/// With an answer for which no member is left out, by wires that count each address alone, as many faults were counted at an address as
/// exchanges of the occurrences failed that are down.
pub fn faults_are_told()
    ensures { FaultsAreTold }
{}

/// The same of a plan: who is left out, and what was exchanged. Where graphs are told, it is the plan by the sources of the patterns among the
/// members that are kept.
pub fn plans_rest_on_this()
    ensures { PlansRestOnThis }
{}

/// For a plan of all members, by wires that count each address alone, no fault was counted.
pub fn plans_count_none()
    ensures { PlansCountNone }
{}

/// A member that is named as failed mustn't be left out, and the count of faults at its address rose.
pub fn members_failed()
    ensures { MembersFailed }
{}

/// An occurrence of SERVICE that is named as failed is the first in text order of the last round that was refused, and the count of faults
/// at its address rose.
pub fn services_failed()
    ensures { ServicesFailed }
{}

/// A member for which there is no plan mustn't be left out, and the count of faults at its address rose.
pub fn plan_members_failed()
    ensures { PlanMembersFailed }
{}

/// No plan is refused for a SERVICE that failed: none is invoked.
pub fn no_plan_service_fails()
    ensures { NoPlanServiceFails }
{}
