//! The words of a command line.
#![tactic(auto)]

pub mod commands;
mod numbers;
mod parsing;

pub use commands::{Command, CommandError, read_command};
