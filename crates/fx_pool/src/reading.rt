//! What replies tell.
ghost use Rattle.std.specs.Prelude.{◌≡◌, All, Contains, IfErr, IfOk, map, position};
ghost use Rattle.fx_bound.specs.Answers.{numbers};
ghost use Rattle.fx_pool.specs.Reading as spec;
ghost use Rattle.fx_values.specs.Answers as values;
ghost use Rattle.fx_values.specs.Reading.{found_of as found_in};

use crate::faults::{ReadError, ReplyFault};
use fx_algebra::scopes::is_among;
use fx_algebra::{Answer, Solution};
use fx_bound::{Batch, BatchError, Found, read_batch};
use fx_http::{ReplyError, read_reply};
use fx_results::{ResultsError, read};
use fx_terms::{Items, Memory, Name};
use fx_values::{Located, ValuesBatch, ValuesError, read_values};
use std::alloc::Global;

/// The truth value that a reply to an ASK is, or its first fault.
pub fn read_truth(alloc: Global, reply: &[u8]) -> Result<bool, ReadError>
    ensures { spec.GivesTruth reply.now result }
{
    match results_of(alloc, reply) {
        Ok(Answer::Truth(truth)) => Ok(truth),
        Ok(Answer::Table { .. }) => Err(ReadError::Bad(ReplyFault::NotTruth)),
        Err(error) => Err(error),
    }
}

/// The rows of the reply to a SERVICE that asks for these columns, or its first fault.
pub fn read_table(
    alloc: Global,
    reply: &[u8],
    columns: &[Name],
) -> Result<Items<Solution>, ReadError>
    ensures { spec.GivesTable reply.now columns.now result }
{
    match results_of(alloc, reply) {
        Ok(Answer::Table { rows, .. }) => match first_foreign(columns, rows.as_slice()) {
            None => Ok(rows),
            Some(row) => Err(ReadError::Bad(ReplyFault::Foreign { row: row as u64 })),
        },
        Ok(Answer::Truth(_)) => Err(ReadError::Bad(ReplyFault::NotTable)),
        Err(error) => Err(error),
    }
}

/// What is found for the branches of a batch by the reply to it, or its first fault.
pub fn read_found(alloc: Global, reply: &[u8], batch: &Batch) -> Result<Items<Found>, ReadError>
    ensures found { spec.GivesFound reply.now batch.now result }
    ensures branches { IfOk result (λ founds. All (λ f. Contains (numbers batch.now) f.branch) founds) }
{
    match results_of(alloc, reply) {
        Ok(answer) => match read_batch(alloc, batch, &answer) {
            Ok(founds) => Ok(founds),
            Err(BatchError::Memory) => Err(ReadError::Memory),
            Err(why) => Err(ReadError::Bad(ReplyFault::Batch(why))),
        },
        Err(error) => Err(error),
    }
}

/// What is found for the rows of a batch by the reply to its VALUES block, or its first fault.
pub fn read_located(
    alloc: Global,
    reply: &[u8],
    batch: &ValuesBatch,
) -> Result<Items<Found>, ReadError>
    ensures found { spec.GivesLocated reply.now batch.now result }
    ensures rows { IfOk result (λ founds. All (λ f. Contains (values.numbers batch.now) f.branch) founds) }
{
    match results_of(alloc, reply) {
        Ok(answer) => match read_values(alloc, batch, &answer) {
            Ok(all) => founds_of(alloc, all.as_slice()),
            Err(ValuesError::Memory) => Err(ReadError::Memory),
            Err(why) => Err(ReadError::Bad(ReplyFault::Values(why))),
        },
        Err(error) => Err(error),
    }
}

// Located rows as what was found for the branches of their numbers.
fn founds_of(alloc: Global, all: &[Located]) -> Result<Items<Found>, ReadError>
    ensures founds { IfOk result (λ founds. founds ≡ map found_in all.now) }
    ensures memory { IfErr result (λ e. e ≡ ReadError.Memory) }
{
    match copied(alloc, all) {
        Ok(founds) => Ok(founds),
        Err(Memory) => Err(ReadError::Memory),
    }
}

fn copied(alloc: Global, all: &[Located]) -> Result<Items<Found>, Memory>
    ensures { IfOk result (λ founds. founds ≡ map found_in all.now) }
{
    let mut founds = Items::new(alloc);
    for located in all {
        founds.push(found_of(alloc, located)?)?;
    }
    Ok(founds)
}

fn found_of(alloc: Global, located: &Located) -> Result<Found, Memory>
    ensures { IfOk result (λ found. found ≡ found_in located.now) }
{
    Ok(Found {
        branch: located.row,
        solution: located.solution.copy(alloc)?,
    })
}

// The results of a reply, or why there are none.
fn results_of(alloc: Global, reply: &[u8]) -> Result<Answer, ReadError>
    ensures { spec.GivesResults reply.now result }
{
    match read_reply(alloc, reply) {
        Ok(whole) => match read(alloc, whole.body()) {
            Ok(answer) => Ok(answer),
            Err(ResultsError::Memory) => Err(ReadError::Memory),
            Err(why) => Err(ReadError::Bad(ReplyFault::Results(why))),
        },
        Err(ReplyError::Memory) => Err(ReadError::Memory),
        Err(why) => Err(ReadError::Bad(ReplyFault::Http(why))),
    }
}

// The first of the rows that binds a name which is no column.
fn first_foreign(columns: &[Name], rows: &[Solution]) -> Option<usize>
    ensures { result ≡ position (spec.is_foreign columns.now) rows.now }
{
    rows.iter().position(|row| is_foreign(columns, row))
}

fn is_foreign(columns: &[Name], row: &Solution) -> bool
    ensures { result ≡ spec.is_foreign columns.now row.now }
{
    row.pairs().iter().any(|pair| !is_among(columns, &pair.0))
}
