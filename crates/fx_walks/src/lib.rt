//! What a walk through the groups of a query goes by: its sections, the parts of its plan and their tasks; and what is sent and what comes of it, by definition.
#![tactic(auto)]

pub mod laws;
pub mod optionals;
pub mod parts;
pub mod sections;
pub mod tasks;
pub mod unknown;
