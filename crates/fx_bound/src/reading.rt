//! The answer to a batch, read.
ghost use Rattle.std.specs.Prelude.{◌≡◌, All, Contains, IfOk, IfSome, List, map, MatchResult, Ok, Err, true};
ghost use Rattle.std.specs.Option.{option_copied};
ghost use Rattle.fx_terms.specs.declared.triples.Triple.{Triple as TripleParts};
ghost use Rattle.fx_algebra.specs.Scopes.{is_among};
ghost use Rattle.fx_bound.specs.Answers as spec;
ghost use Rattle.fx_bound.specs.Parts.{branches_of, places};
ghost use Rattle.fx_bound.specs.Reading as reading;
ghost use Rattle.fx_bound.specs.Sent as sent;

use crate::batches::Batch;
use crate::branches::Branch;
use crate::faults::{BatchError, RowFault};
use crate::tellings::with_told;
use fx_algebra::{Answer, Solution};
use fx_founds::Found;
use fx_terms::{Items, Memory, Name, Term};
use std::alloc::Global;

/// What the rows of an answer to a batch tell, in their order: the branch that each is of, and the branch's row with the row's terms
/// under the unit's own names.
///
/// `NotTable` comes exactly where the answer is a truth value. Otherwise the first row that has a fault is named: `Foreign` where it
/// binds a name that is no column of the batch, else `Mixed` where it binds columns of two branches, else `Partial` where it binds
/// none or misses one of its branch.
pub fn read_batch(alloc: Global, batch: &Batch, answer: &Answer) -> Result<Items<Found>, BatchError>
    ensures exact { spec.AnswersBatch result (spec.read_answer batch.now answer.now) }
    ensures tells { (graph : List TripleParts) → spec.IsAnswered graph batch.now answer.now → spec.Tells graph batch.now result }
    ensures branches { IfOk result (λ founds. All (λ f. Contains (spec.numbers batch.now) f.branch) founds) }
{
    let _branches = batch.branches();
    match answer {
        Answer::Truth(_) => Err(BatchError::NotTable),
        Answer::Table { columns: _, rows } => read_rows(alloc, batch, rows.as_slice()),
    }
}

fn read_rows(alloc: Global, batch: &Batch, rows: &[Solution]) -> Result<Items<Found>, BatchError>
    ensures { spec.AnswersBatch result (spec.read_rows (reading.read_row batch.now.unit (places batch.now)) 0 rows.now) }
{
    let mut founds = Items::new(alloc);
    for (number, row) in rows.iter().enumerate() {
        founds.push(read_row(alloc, batch, number, row)?)?;
    }
    Ok(founds)
}

fn read_row(
    alloc: Global,
    batch: &Batch,
    number: usize,
    row: &Solution,
) -> Result<Found, BatchError>
    ensures { spec.AnswersBatch result (spec.numbered number (reading.read_row batch.now.unit (places batch.now) row.now)) }
{
    match branch_of(batch, row) {
        Ok(branch) => Ok(found(alloc, branch, row)?),
        Err(RowFault::Foreign) => Err(BatchError::Foreign { row: number as u64 }),
        Err(RowFault::Mixed) => Err(BatchError::Mixed { row: number as u64 }),
        Err(RowFault::Partial) => Err(BatchError::Partial { row: number as u64 }),
    }
}

// The branch that a row is of, or what is wrong with the row. Where the branch of one of its columns has just these, it is that one;
// all the branches are looked at for a row with a fault alone, so at most once for an answer.
fn branch_of<'b>(batch: &'b Batch, row: &Solution) -> Result<&'b Branch, RowFault>
    ensures { MatchResult result
        (λ b. reading.read_row batch.now.unit (places batch.now) row.now ≡ Ok (sent.found_by row.now b.now))
        (λ e. reading.read_row batch.now.unit (places batch.now) row.now ≡ Err e) }
{
    let branches = batch.branches();
    match likely(batch, row) {
        Some(branch) => Ok(branch),
        None => branch_in(branches, row),
    }
}

// The branch of the row's first column, where the row binds just the columns of that branch.
fn likely<'b>(batch: &'b Batch, row: &Solution) -> Option<&'b Branch>
    ensures { IfSome result (λ b. sent.IsOf (branches_of batch.now) b.now row.now) }
{
    let first = row.pairs().first()?;
    let place = batch.columns().place(&first.0)?;
    let branch = batch.branches().get(place)?;
    if binds_just(branch, row) {
        Some(branch)
    } else {
        None
    }
}

fn binds_just(branch: &Branch, row: &Solution) -> bool
    ensures { result ≡ true → sent.binds_just (sent.columns branch.now) row.now ≡ true }
{
    if branch.checked.is_none() && is_in_order(branch.sent.as_slice(), row.pairs()) {
        return true;
    }
    has_columns(branch, row.pairs()) && binds_all(branch, row)
}

// Whether the names of pairs are those that were sent, in their order, as they are where the unit has ten variables at most.
fn is_in_order(names: &[(Name, Name)], pairs: &[(Name, Term)]) -> bool
    ensures { result ≡ true → map (λ e. e.0) pairs.now ≡ map (λ e. e.0) names.now }
{
    if pairs.len() != names.len() {
        return false;
    }
    for i in 0..pairs.len() {
        if pairs[i].0 != names[i].0 {
            return false;
        }
    }
    true
}

// Whether each pair is under a column of a branch.
fn has_columns(branch: &Branch, pairs: &[(Name, Term)]) -> bool
    ensures { result ≡ sent.has_columns (sent.columns branch.now) pairs.now }
{
    for pair in pairs {
        if !is_column(branch, &pair.0) {
            return false;
        }
    }
    true
}

fn is_column(branch: &Branch, name: &Name) -> bool
    ensures { result ≡ is_among (sent.columns branch.now) name.now }
{
    match &branch.checked {
        Some(column) => *column == *name,
        None => is_sent(branch.sent.as_slice(), name),
    }
}

fn is_sent(pairs: &[(Name, Name)], name: &Name) -> bool
    ensures { result ≡ is_among (sent.others pairs.now) name.now }
{
    for pair in pairs {
        if pair.0 == *name {
            return true;
        }
    }
    false
}

fn binds_all(branch: &Branch, row: &Solution) -> bool
    ensures { result ≡ reading.binds_all (sent.columns branch.now) row.now }
{
    match &branch.checked {
        Some(column) => row.get(column).is_some(),
        None => binds_each(branch.sent.as_slice(), row),
    }
}

fn binds_each(pairs: &[(Name, Name)], row: &Solution) -> bool
    ensures { result ≡ reading.binds_all (sent.others pairs.now) row.now }
{
    for pair in pairs {
        if row.get(&pair.0).is_none() {
            return false;
        }
    }
    true
}

fn binds_one(branch: &Branch, row: &Solution) -> bool
    ensures { result ≡ reading.binds_one (sent.columns branch.now) row.now }
{
    match &branch.checked {
        Some(column) => row.get(column).is_some(),
        None => binds_any(branch.sent.as_slice(), row),
    }
}

fn binds_any(pairs: &[(Name, Name)], row: &Solution) -> bool
    ensures { result ≡ reading.binds_one (sent.others pairs.now) row.now }
{
    for pair in pairs {
        if row.get(&pair.0).is_some() {
            return true;
        }
    }
    false
}

fn branch_in<'b>(branches: &'b [Branch], row: &Solution) -> Result<&'b Branch, RowFault>
    ensures { MatchResult result (λ b. sent.branch_in branches.now row.now ≡ Ok b.now) (λ e. sent.branch_in branches.now row.now ≡ Err e) }
{
    if has_foreign(branches, row.pairs()) {
        return Err(RowFault::Foreign);
    }
    branch_bound(branches, row)
}

fn has_foreign(branches: &[Branch], pairs: &[(Name, Term)]) -> bool
    ensures { result ≡ sent.has_foreign branches.now pairs.now }
{
    for pair in pairs {
        if !is_column_of_any(branches, &pair.0) {
            return true;
        }
    }
    false
}

fn is_column_of_any(branches: &[Branch], name: &Name) -> bool
    ensures { result ≡ is_among (sent.columns_of_all branches.now) name.now }
{
    for branch in branches {
        if is_column(branch, name) {
            return true;
        }
    }
    false
}

fn branch_bound<'b>(branches: &'b [Branch], row: &Solution) -> Result<&'b Branch, RowFault>
    ensures { MatchResult result (λ b. sent.branch_bound row.now (sent.bound_ones row.now branches.now) ≡ Ok b.now) (λ e. sent.branch_bound row.now (sent.bound_ones row.now branches.now) ≡ Err e) }
{
    let mut found = None;
    for branch in branches {
        if binds_one(branch, row) {
            if found.is_some() {
                return Err(RowFault::Mixed);
            }
            found = Some(branch);
        }
    }
    whole(found, row)
}

// The one branch of which a row binds columns, where it binds all of them.
fn whole<'b>(found: Option<&'b Branch>, row: &Solution) -> Result<&'b Branch, RowFault>
    ensures { MatchResult result (λ b. sent.branch_bound row.now (sent.listed (option_copied found.entry)) ≡ Ok b.now) (λ e. sent.branch_bound row.now (sent.listed (option_copied found.entry)) ≡ Err e) }
{
    match found {
        None => Err(RowFault::Partial),
        Some(branch) => {
            if binds_all(branch, row) {
                Ok(branch)
            } else {
                Err(RowFault::Partial)
            }
        }
    }
}

fn found(alloc: Global, branch: &Branch, row: &Solution) -> Result<Found, Memory>
    ensures { IfOk result (λ f. f ≡ sent.found_by row.now branch.now) }
{
    Ok(Found {
        branch: branch.number,
        solution: with_told(alloc, branch.sent.as_slice(), &branch.row.solution, row)?,
    })
}
