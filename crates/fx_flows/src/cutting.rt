//! Rows cut into batches.
ghost use Rattle.std.specs.Prelude.{◌<◌, IfOk};
ghost use Rattle.fx_traffic.specs.Batches.{AreCut};
ghost use Rattle.fx_flows.specs.Cuts.{IsClosed, MakesRoom};

use fx_algebra::Row;
use fx_terms::{Items, Memory};
use std::alloc::Global;

/// All of these rows in their order, in as few batches of `block` rows at most as their number allows.
pub(crate) fn cut(alloc: Global, rows: Vec<Row>, block: u64) -> Result<Vec<Items<Row>>, Memory>
    requires { 0 < block }
    ensures { IfOk result (λ batches. AreCut rows.items block batches.items) }
{
    let mut batches = Vec::new(alloc);
    let mut batch = Items::new(alloc);
    for row in rows {
        batch = with_room(alloc, &mut batches, batch, block)?;
        batch.push(row)?;
    }
    closed(batches, batch)
}

// A batch with room for a row: this one, or a new one where this one is full.
fn with_room(
    alloc: Global,
    batches: &mut Vec<Items<Row>>,
    batch: Items<Row>,
    block: u64,
) -> Result<Items<Row>, Memory>
    ensures { MakesRoom block batches.old.items batch batches.new.items result }
{
    if (batch.len() as u64) < block {
        return Ok(batch);
    }
    if batches.push(batch).is_err() {
        return Err(Memory);
    }
    Ok(Items::new(alloc))
}

// The batches, and the last one where it isn't empty.
fn closed(batches: Vec<Items<Row>>, batch: Items<Row>) -> Result<Vec<Items<Row>>, Memory>
    ensures { IsClosed batches.items batch result }
{
    let mut batches = batches;
    if batch.is_empty() {
        return Ok(batches);
    }
    if batches.push(batch).is_err() {
        return Err(Memory);
    }
    Ok(batches)
}
