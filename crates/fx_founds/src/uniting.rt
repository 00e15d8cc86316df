//! What several members told, united.
ghost use Rattle.std.specs.Prelude.{◌≡◌, ◌++◌, All, Contains, IfOk, OnOk, map};
ghost use Rattle.std.specs.List.{flat_map};
ghost use Rattle.fx_terms.specs.Graphs.{set_of};
ghost use Rattle.fx_algebra.specs.declared.units.Unit.{Unit as UnitParts};
ghost use Rattle.fx_founds.specs.FoundOrder.{found_cmp};
ghost use Rattle.fx_founds.specs.Uniting as spec;

use crate::founds::Found;
use fx_algebra::Row;
use fx_terms::{Items, Memory};
use std::alloc::Global;

/// Each thing that was found, once, in order.
pub fn each_once(alloc: Global, lists: &[Items<Found>]) -> Result<Vec<Found>, Memory>
    ensures { IfOk result (λ founds. founds.items ≡ set_of found_cmp (flat_map (λ list. list) lists.now)) }
{
    let mut founds = Vec::new(alloc);
    for list in lists {
        add_all(alloc, &mut founds, list.as_slice())?;
    }
    founds.sort()?;
    founds.dedup();
    Ok(founds)
}

fn add_all(alloc: Global, founds: &mut Vec<Found>, more: &[Found]) -> Result<(), Memory>
    ensures { OnOk result (founds.new.items ≡ founds.old.items ++ more.now) }
{
    for found in more {
        founds.push(found.copy(alloc)?)?;
    }
    Ok(())
}

/// All that was found for branches of rows, by the number of the branch and then in the order of solutions, each solution of a branch
/// once, and each under the number of the input row that the branch's row comes from. It is the same for each unit that has these
/// branches.
pub fn unite_rows(alloc: Global, rows: &[Row], lists: &[Items<Found>]) -> Result<Vec<Row>, Memory>
    ensures { (u : UnitParts) → All (λ list. All (λ f. Contains (spec.numbers_of u rows.now) f.branch) list) lists.now
        → IfOk result (λ united. united.items ≡ spec.united (spec.branches u rows.now) lists.now) }
{
    let founds = each_once(alloc, lists)?;
    rows_of(alloc, rows, founds)
}

// The solutions, each under the number that the row of its branch came with.
fn rows_of(alloc: Global, rows: &[Row], founds: Vec<Found>) -> Result<Vec<Row>, Memory>
    ensures { IfOk result (λ united. united.items ≡ map (spec.row_by rows.now) founds.items) }
{
    let mut united = Vec::with_capacity(alloc, founds.len())?;
    for found in founds {
        united.push(row_of(rows, found))?;
    }
    Ok(united)
}

fn row_of(rows: &[Row], found: Found) -> Row
    ensures { result ≡ spec.row_by rows.now found }
{
    let Found { branch, solution } = found;
    Row {
        origin: origin(rows, branch),
        solution,
    }
}

// The number that the row at a place came with, or 0 where there is none.
fn origin(rows: &[Row], place: u32) -> u64
    ensures { result ≡ spec.origin_at rows.now place }
{
    match rows.get(place as usize) {
        Some(row) => row.origin,
        None => 0,
    }
}
