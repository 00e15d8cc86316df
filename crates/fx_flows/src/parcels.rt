//! Rows on their way through the units of a run.

use fx_algebra::Row;
use fx_terms::Items;

/// How many units a run has, and how many rows a parcel may have.
#[derive(Clone, Copy)]
pub struct RunShape {
    pub units: u64,
    pub block: u64,
}

/// Rows that enter the unit of a number, from 0, to be asked for in one batch.
#[derive(Drop)]
pub struct Parcel {
    pub shape: RunShape,
    pub step: u64,
    pub rows: Items<Row>,
}
