//! What the cases of commands give: words, files, streams, wires and doors in memory from the fields of a case, what is told of a run, and the
//! calls of `fx_words` and `fx_local` that read words and write lines.
#![tactic(auto)]

pub mod commands;
pub mod doors;
pub mod ends;
pub mod files;
pub mod streams;
pub mod watched;
pub mod wires;
