//! What the tokens of a text say: keywords and marks, names, numbers, and IRIs and texts with their escapes decoded.
#![tactic(auto)]

mod keywords;
mod said;

pub use said::classify;
