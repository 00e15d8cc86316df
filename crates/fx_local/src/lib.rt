//! What commands need that ask no member: the files that they read, the refusals of these, their statuses and lines, and the commands `local`, which
//! answers a query over the graph of a file, and `member`, which serves it.
#![tactic(auto)]

pub mod documents;
mod graphs;
pub mod limits;
pub mod loading;
pub mod local;
pub mod refusals;
pub mod reports;
pub mod serving;
pub mod statuses;

pub use documents::{Report, write_report};
pub use loading::{load_query, load_registry};
pub use local::run_local;
pub use refusals::Refusal;
pub use reports::{write_refusal, write_usage};
pub use serving::run_member;
pub use statuses::Status;
