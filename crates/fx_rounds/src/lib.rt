//! What holds of a whole call that asked a query in rounds, where members may be left out: what was exchanged, who is left out, and what that rests on.
#![tactic(auto)]

pub mod laws;
