//! The mediator: the answer of a query over the union of the graphs of several endpoints, and its plan.
#![tactic(auto)]

mod answers;
mod groups;
mod hands;
pub mod mediator;
mod outcomes;
mod questions;
mod rounds;
mod rows;
mod together;
mod walks;

pub use fx_outcomes::{
    FedError, Left, LeftCause, MemberName, Options, Outcome, OutcomeInRounds, PlanInRounds, Round,
    fault_code, fault_words,
};
pub use fx_pool::{BadReply, ReplyFault};
pub use fx_services::{Down, DownCause};
pub use mediator::{federate, federate_by, plan_parts, plan_parts_by};
