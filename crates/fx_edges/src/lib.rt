//! Tests of what only the system can show, over its sockets, files, streams and threads: that the door, the files, the links, the sinks
//! and the wire which reach it do there what their twins in memory do. The crate has nothing else in it.
#![tactic(auto)]

#[cfg(test)]
mod door_tests;
#[cfg(test)]
mod storage_tests;
#[cfg(test)]
mod stream_tests;
#[cfg(test)]
mod wire_tests;
