//! The commands that ask members, over files, wires and streams that are handed in: `query`, `explain` and `generate`.
#![tactic(auto)]

pub mod counting;
pub mod explained;
pub mod federated;
pub mod generated;
mod generator;
pub mod refusals;

pub use counting::count_rows;
pub use explained::run_explain;
pub use federated::{answer_members, run_query};
pub use generated::run_generate;
