//! The members that are left out of a federation, and the rounds that are abandoned for them.
ghost use Rattle.std.specs.Prelude.{◌≡◌, MatchOption};
ghost use Rattle.fx_outcomes.specs.Rounds as spec;

use crate::federated::Outcome;
use fx_flows::FlowError;
use fx_plan::Part;
use fx_pool::BadReply;
use fx_sources::Probe;
use fx_terms::Items;

/// Why a member is left out.
#[derive(Drop)]
pub enum LeftCause {
    /// An exchange with it failed, and was counted as a fault at its address.
    Failed,
    /// A reply of it is bad.
    Bad(BadReply),
    /// A text for it has more than 67,108,864 bytes, so many, and wasn't sent.
    TooLong { length: u64 },
}

/// A member that is left out, by its number in the registry, from 0.
#[derive(Drop)]
pub struct Left {
    pub at: u32,
    pub why: LeftCause,
}

/// A round that was abandoned.
#[derive(Drop)]
pub struct Round {
    /// The members that are left out for what they did in it, by number.
    pub left: Items<Left>,
    /// The numbers of the occurrences of SERVICE SILENT that were down in it.
    pub down: Items<u64>,
}

/// How a round ended.
#[derive(Drop)]
pub enum Ended {
    /// With what the federation gives.
    Answered(Outcome),
    /// A member is left out, and the rest is asked anew.
    Abandoned(Round),
}

/// What a federation gives in rounds.
#[derive(Drop)]
pub struct OutcomeInRounds {
    /// What the last round gave.
    pub outcome: Outcome,
    /// The rounds that were abandoned before it, in their order. The first is that of the ASKs, where these left somebody out.
    pub abandoned: Items<Round>,
}

/// The plan of a query over the members that are kept.
#[derive(Drop)]
pub struct PlanInRounds {
    /// Its parts, in text order.
    pub parts: Vec<Part>,
    /// The round of the ASKs, where these left somebody out.
    pub abandoned: Items<Round>,
}

/// What the ASKs of a query came to.
#[derive(Drop)]
pub struct Answers {
    /// The probes that have an answer, in the order in which they were handed in.
    pub probes: Vec<Probe>,
    /// Their answers.
    pub truths: Vec<bool>,
    /// Which members are kept, by number.
    pub kept: Vec<bool>,
    /// The members that are left out, each for the first of its ASKs that has no answer.
    pub left: Vec<Left>,
}

/// The member that a refusal names, left out for it. Want of memory names none.
pub fn left_by(error: FlowError) -> Option<Left>
    ensures { MatchOption result (spec.IsNobodys error) (λ l. spec.IsLeftBy error l) }
{
    match error {
        FlowError::Member { at } => Some(Left {
            at,
            why: LeftCause::Failed,
        }),
        FlowError::BadReply { at, bad } => Some(Left {
            at,
            why: LeftCause::Bad(bad),
        }),
        FlowError::RequestTooLong { at, length } => Some(Left {
            at,
            why: LeftCause::TooLong { length },
        }),
        FlowError::Memory => None,
    }
}
