//! Rules of grammars, over any symbols.
//!
//! What a rule spells, what stops it and how it is read from left to right stand in `specs/Rule.antt`, with the ways to make one. That each way
//! keeps these the same is proved once for all grammars in `proofs/`: a grammar is an alphabet and its rules. Nothing here is called.
#![tactic(auto)]
