//! Tests of what only the system can show of a whole command, and of threads: that a command ends over an endpoint that hangs, or that answers at too
//! great length, and that several wires are at work at once. The crate has nothing else in it.
#![tactic(auto)]

#[cfg(test)]
mod pools;
#[cfg(test)]
mod runs;
#[cfg(test)]
mod tests;
