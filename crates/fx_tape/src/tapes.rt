//! Tapes and their exchanges.

use fx_terms::Items;

/// An exchange with an endpoint, as a tape keeps it.
#[derive(Debug, Drop)]
pub struct Exchange {
    /// The number of the endpoint.
    pub at: u32,
    /// The bytes that were sent.
    pub request: Items<u8>,
    /// The bytes that came back; none where the exchange failed.
    pub reply: Option<Items<u8>>,
}

/// The exchanges that a query was answered with, in order.
#[derive(Debug, Drop)]
pub struct Tape {
    /// How many rows a batch may have.
    pub block: u32,
    /// The exchanges.
    pub exchanges: Items<Exchange>,
}

/// Why bytes are no tape.
#[derive(Clone, Copy, Debug, PartialEq, Eq)]
pub enum TapeError {
    /// No tape begins with the bytes up to and with the one at this place, and some tape begins with those before it; or the bytes
    /// end too early, and this is their number.
    Form { place: u64 },
    /// Memory ran out.
    Memory,
}
