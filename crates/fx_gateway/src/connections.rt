//! What a connection to a federation comes to.

use fx_outcomes::{FedError, Round};
use fx_services::Down;
use fx_terms::Items;

/// What was replied to a request, and what is known beside it.
#[derive(Drop)]
pub struct Gated {
    /// The status of the reply.
    pub status: u16,
    /// Why the members gave no answer, where they were asked for one. It is never want of memory.
    pub fault: Option<FedError>,
    /// The occurrences of SERVICE SILENT that failed, by number, each of which gave the one empty solution. There are none where there is a fault.
    pub down: Items<Down>,
    /// The rounds that were abandoned, in their order, each for a member that is left out. There are none where there is a fault.
    pub abandoned: Items<Round>,
}

/// A whole reply that is ready to be written.
#[derive(Drop)]
pub struct GatedReply {
    pub gated: Gated,
    pub bytes: Vec<u8>,
}

/// Why no whole reply was written.
#[derive(Drop)]
pub enum GateError {
    /// A read failed, and nothing was asked or written.
    ReadFault,
    /// A write failed, and a front of the reply was written.
    WriteFault {
        /// What the whole reply would have been.
        gated: Gated,
    },
    /// Memory ran out, and nothing was written.
    Memory,
}
