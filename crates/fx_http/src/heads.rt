//! How much of a message is looked through for its head.

pub const LONGEST_HEAD: usize = 65_536;

pub const MOST_FIELDS: usize = 100;
