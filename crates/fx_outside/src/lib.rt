//! The outside: what is written to and read from, in memory and over the system, with a count of each one's faults.
//!
//! A call that answers a fault has counted it, once, and no other answer is counted; the count of a source or a sink may stand at the
//! end of `u64` then.
#![tactic(auto)]

pub mod doors;
pub mod endpoints;
pub mod memory_doors;
pub mod memory_links;
pub mod memory_storage;
pub mod memory_streams;
pub mod name_counts;
pub mod patience;
pub mod read_ahead;
pub mod reading;
pub mod storage;
pub mod streams;
pub mod system_doors;
pub mod system_links;
pub mod system_storage;
pub mod system_streams;
pub mod writing;

pub use doors::{Door, DoorError};
pub use endpoints::{Endpoint, Flags};
use fx_terms::shareable;
pub use memory_doors::MemoryDoor;
pub use memory_links::MemoryLink;
pub use memory_storage::MemoryFiles;
pub use memory_streams::MemorySink;
pub use name_counts::NameCounts;
pub use patience::Patient;
pub use read_ahead::ReadAhead;
pub use reading::read_front;
pub use storage::{FileError, Files};
pub use streams::{Ends, ReadFailed, Sink, Source, WriteFailed};
pub use system_doors::Listener;
pub use system_links::StdLink;
pub use system_storage::Folder;
pub use system_streams::StdSink;
pub use writing::write_all;

/// Every type of this crate may be shared between threads and sent to them; one that holds a runtime or a writer may
/// where that may.
pub fn all_shareable<T: Send + Sync>() {
    shareable::<Endpoint>();
    shareable::<Flags>();
    shareable::<ReadFailed>();
    shareable::<WriteFailed>();
    shareable::<FileError>();
    shareable::<DoorError>();
    shareable::<MemoryDoor>();
    shareable::<MemoryLink>();
    shareable::<MemorySink>();
    shareable::<MemoryFiles>();
    shareable::<NameCounts>();
    shareable::<Folder<T>>();
    shareable::<Patient<T, T>>();
    shareable::<ReadAhead<T>>();
    shareable::<StdLink<T>>();
    shareable::<StdSink<T>>();
}
