//! What a federation gives, by definition; and what is asked of members before the runs of a query: its ASKs and its occurrences of SERVICE.
#![tactic(auto)]

mod asks;
pub mod choices;
pub mod fault_texts;
pub mod federated;
mod gathering;
pub mod invocations;
pub mod members;
pub mod rounds;

pub use fault_texts::{fault_code, fault_words};
pub use federated::{FedError, MemberName, Options, Outcome, name_at, named};
use fx_terms::shareable;
pub use rounds::{Answers, Ended, Left, LeftCause, OutcomeInRounds, PlanInRounds, Round, left_by};

/// Every type that a federation takes or gives may be shared between threads and sent to them.
pub fn all_shareable() {
    shareable::<Options>();
    shareable::<Outcome>();
    shareable::<MemberName>();
    shareable::<FedError>();
    shareable::<Round>();
    shareable::<OutcomeInRounds>();
    shareable::<PlanInRounds>();
}
