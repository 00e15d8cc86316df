//! The cases of bound joins: the texts of batches, what is read of their answers, and what members told, united.
#![tactic(auto)]

pub mod batches;
pub mod runs;
pub mod values;
