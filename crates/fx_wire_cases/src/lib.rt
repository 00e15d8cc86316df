//! The cases of what is asked and answered: streams, files and doors in memory, requests and replies, stores, wires and the member
//! endpoint.
#![tactic(auto)]

pub mod members;
pub mod outside;
pub mod requests;
pub mod stores;
pub mod wires;
