//! How many brackets are open at once in what is printed of an accepted query, and of the groups of its SERVICEs.
//!
//! The laws stand in `specs/Shallow.antt`.
#![tactic(auto)]

pub mod laws;
