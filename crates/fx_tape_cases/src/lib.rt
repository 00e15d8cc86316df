//! The cases of the tapes of transcripts.
#![tactic(auto)]

pub mod tapes;
