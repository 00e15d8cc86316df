//! Why a reply is bad.

use fx_bound::BatchError;
use fx_http::ReplyError;
use fx_results::ResultsError;
use fx_values::ValuesError;

/// Why a reply is bad: the first of these that applies.
#[derive(Clone, Copy, PartialEq, Eq)]
pub enum ReplyFault {
    /// It is no reply with results, for this reason, which is never want of memory.
    Http(ReplyError),
    /// Its body is no results document, for this reason, which is never want of memory.
    Results(ResultsError),
    /// Its results are none of a batch, for this reason, which is never want of memory.
    Batch(BatchError),
    /// Its results are none of a batch that was asked for as VALUES, for this reason, which is never want of memory.
    Values(ValuesError),
    /// Its results are a table, where a truth value was asked for.
    NotTruth,
    /// Its results are a truth value, where the rows of a SERVICE were asked for.
    NotTable,
    /// The first row of a SERVICE, from 0, that binds a name which wasn't asked for.
    Foreign { row: u64 },
}

/// Why a reply gives nothing.
#[derive(Clone, Copy)]
pub enum ReadError {
    /// It has this fault.
    Bad(ReplyFault),
    /// Memory ran out.
    Memory,
}
