//! The tape of a transcript: the exchanges of one query as bytes, both ways.
//!
//! What a tape is written as stands in `specs/Tapes.antt`, and which bytes are none, with their place, in `specs/Refusals.antt`. How the bytes
//! are read from the front on, piece by piece, stands in `specs/Spellings.antt` and `specs/Pieces.antt`. No command reads or writes tapes yet.
#![tactic(auto)]

mod exchanges;
mod faults;
pub mod laws;
mod pieces;
mod reading;
pub mod tapes;
mod writing;

use fx_terms::shareable;
pub use reading::read_tape;
pub use tapes::{Exchange, Tape, TapeError};
pub use writing::write_tape;

/// Every type of this crate may be shared between threads and sent to them.
pub fn all_shareable() {
    shareable::<Exchange>();
    shareable::<Tape>();
    shareable::<TapeError>();
}
