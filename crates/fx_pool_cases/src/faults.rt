//! Why a reply is bad, as a text.

use fx_bound_cases::{batches, values};
use fx_http::ReplyError;
use fx_notation::shown;
use fx_pool::ReplyFault;
use std::alloc::Global;

/// The name of the fault, behind that of what has it, with its code, part or row.
pub(crate) fn fault_text(alloc: Global, why: ReplyFault) -> Option<String> {
    match why {
        ReplyFault::Http(error) => http_text(alloc, error),
        ReplyFault::Results(error) => format!(in alloc; "Results {error:?}").ok(),
        ReplyFault::Batch(error) => {
            let error = batches::error_text(alloc, error)?;
            format!(in alloc; "Batch {error}").ok()
        }
        ReplyFault::Values(error) => {
            let error = values::error_text(alloc, error)?;
            format!(in alloc; "Values {error}").ok()
        }
        ReplyFault::NotTruth => shown::word(alloc, "NotTruth"),
        ReplyFault::NotTable => shown::word(alloc, "NotTable"),
        ReplyFault::Foreign { row } => format!(in alloc; "Foreign at {row}").ok(),
    }
}

fn http_text(alloc: Global, error: ReplyError) -> Option<String> {
    match error {
        ReplyError::Status { code } => format!(in alloc; "Http Status {code}").ok(),
        _ => format!(in alloc; "Http {error:?}").ok(),
    }
}
