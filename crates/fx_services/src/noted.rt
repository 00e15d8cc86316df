//! Occurrences of SERVICE SILENT that failed.
ghost use Rattle.std.specs.Prelude.{◌≡◌, ◌∷◌, [], IfOk};
ghost use Rattle.fx_services.specs.Noted as spec;

use crate::services::ServiceError;
use fx_algebra::Solution;
use fx_pool::BadReply;
use fx_terms::{Iri, Items, Memory};
use std::alloc::Global;

/// An occurrence of SERVICE SILENT that failed.
#[derive(Drop)]
pub struct Down {
    /// Its number among the occurrences of the query in text order, from 0.
    pub place: u64,
    pub iri: Iri,
    pub why: DownCause,
}

/// Why an occurrence of SERVICE SILENT failed.
#[derive(Drop)]
pub enum DownCause {
    /// Its exchange failed, and was counted as a fault at the address.
    Failed,
    /// The reply is bad.
    Bad(BadReply),
    /// Its text has more than 67,108,864 bytes, so many, and wasn't sent.
    TooLong { length: u64 },
    /// No endpoint of the registry has its IRI as its address.
    Unknown,
}

/// Notes an occurrence that has no rows for this reason behind those that are down, and gives the one empty solution.
pub(crate) fn note_down(
    alloc: Global,
    number: u64,
    iri: &Iri,
    error: ServiceError,
    down: &mut Vec<Down>,
) -> Result<Items<Solution>, Memory>
    ensures { IfOk result (spec.IsNoted number iri.now (spec.cause_of error) down.old.items down.new.items) }
{
    let rows = one_row(alloc)?;
    let iri = iri.copy()?;
    let place = number;
    let why = cause_of(error);
    if down.push(Down { place, iri, why }).is_err() {
        return Err(Memory);
    }
    Ok(Items::from_vec(rows))
}

// Why an occurrence is down that has no rows for this reason.
fn cause_of(error: ServiceError) -> DownCause
    ensures { result ≡ spec.cause_of error }
{
    match error {
        ServiceError::Unknown => DownCause::Unknown,
        ServiceError::Failed { at: _ } => DownCause::Failed,
        ServiceError::Bad { at: _, bad } => DownCause::Bad(bad),
        ServiceError::TooLong { at: _, length } => DownCause::TooLong { length },
    }
}

/// The one empty solution.
pub fn one_row(alloc: Global) -> Result<Vec<Solution>, Memory>
    ensures { IfOk result (λ rows. rows.items ≡ [] ∷ []) }
{
    let mut rows = Vec::new(alloc);
    rows.push(Solution::empty(alloc))?;
    Ok(rows)
}
