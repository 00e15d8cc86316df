//! The cases of what a mediator does before it asks for rows: registries, which endpoints are asked for what, and plans.
#![tactic(auto)]

pub mod plans;
pub mod registries;
pub mod sources;
