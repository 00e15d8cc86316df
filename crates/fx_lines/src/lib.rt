//! Lines on standard error of what members and SERVICEs didn't give.
#![tactic(auto)]

pub mod lines;

pub use lines::{answer_lines, left_lines, noted_lines};
