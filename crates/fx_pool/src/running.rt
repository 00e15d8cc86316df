//! Jobs over wires.
ghost use Rattle.std.specs.Prelude.{◌≡◌, ◌<◌, [], ◌∷◌, ◌≤◌, All, IfOk, true, length, map};
ghost use Rattle.fx_outside.specs.Endpoints.{is_sendable};
ghost use Rattle.fx_pool.specs.Jobs.{IsReplyTo, Tells};
ghost use Rattle.fx_pool.specs.Runs.{WireDid, WiresDidOver, all_replies, one_reply};
ghost use Rattle.fx_traffic.specs.Gains.{seen};
ghost use Rattle.fx_pool.specs.Telling.{GivesFoundReply, GivesLocatedReply, GivesTableReply, GivesTold, GivesTruthReply};

use crate::claims::{known, opened};
use crate::faults::ReadError;
use crate::jobs::{BadReply, Job, JobReply, Work};
use crate::ordering::in_order;
use crate::posting::{Posted, post};
use crate::reading::{read_found, read_located, read_table, read_truth};
use crate::sharing::share;
use fx_bound::Batch;
use fx_outside::Endpoint;
use fx_terms::{Items, Memory, Name};
use fx_values::ValuesBatch;
use fx_wire::Wire;
use std::alloc::Global;
use std::sync::Wait;
use std::thread::Threads;

/// Does jobs for endpoints over wires, each wire by a worker of its own, and gives one reply for each, in their order. A worker that is free does the
/// next job that no other has begun. No more workers are started than there are jobs.
///
/// A job whose text has more than 67,108,864 bytes is `TooLong`, and nothing is sent for it. Else its text is sent to its endpoint, once: the
/// reply is `Failed` where that exchange failed, which its wire counted as a fault at the endpoint's address; `Bad` with the first fault of what
/// was replied; and else what it tells, a truth value for an ASK and rows for a SERVICE.
///
/// Where wires tell their logs, they gained exactly the exchanges that the replies answer to. `Memory` comes where memory runs out: then some of
/// the jobs were done, none of them twice.
pub fn run_jobs<R: Threads + Wait + Sync, W: Wire + Send>(
    rt: &R,
    alloc: Global,
    endpoints: &[Endpoint],
    jobs: &[Job],
    wires: &mut [W],
) -> Result<Vec<JobReply>, Memory>
    requires wired { (0 < length wires.old) × (length wires.old ≤ 16) }
    requires sendable { All (λ e. is_sendable e ≡ true) endpoints.now }
    requires within { All (λ j. j.at < length endpoints.now) jobs.now }
    requires few { length jobs.now < 4294967296 }
    ensures { WiresDidOver (seen W.Wire wires.old wires.new) endpoints.now jobs.now (all_replies result) }
{
    let Ok((claims, mut me)) = opened(alloc, jobs.len() as u64) else {
        return Err(Memory);
    };
    let count = wanted(jobs.len(), wires.len());
    let (used, _idle) = wires.split_at_mut(count);
    let done = share(rt, &alloc, &claims, &mut me, endpoints, jobs, used);
    // Each number below the word was drawn once: no job was done twice, and where memory didn't run out none is left.
    let _word = known(&claims, &mut me);
    match done {
        Ok(done) => in_order(alloc, done),
        Err(Memory) => Err(Memory),
    }
}

// How many wires jobs can use: no more than there are jobs, and one where there is none.
fn wanted(jobs: usize, wires: usize) -> usize
    requires { 0 < wires }
    ensures { (0 < result) × (result ≤ wires) }
{
    jobs.max(1).min(wires)
}

/// Does one job over a wire.
pub(crate) fn do_job<W: Wire>(
    alloc: Global,
    wire: &mut W,
    endpoints: &[Endpoint],
    job: &Job,
) -> Result<JobReply, Memory>
    requires sendable { All (λ e. is_sendable e ≡ true) endpoints.now }
    requires within { job.now.at < length endpoints.now }
    ensures { WireDid W.counts_alone (W.seen wire.old) (W.seen wire.new) endpoints.now (job.now ∷ []) (one_reply result) }
{
    let at = &endpoints[job.at as usize];
    match post(alloc, wire, at, job.work.text()) {
        Ok(posted) => reply_of(alloc, &job.work, posted),
        Err(Memory) => Err(Memory),
    }
}

// What came of a job, by what came of its text.
fn reply_of(alloc: Global, work: &Work, posted: Posted) -> Result<JobReply, Memory>
    ensures { IfOk result (λ reply. IsReplyTo work.now posted reply) }
{
    match posted {
        Posted::Replied { request, reply } => told_by(alloc, work, request, reply),
        Posted::Failed => Ok(JobReply::Failed),
        Posted::TooLong { length } => Ok(JobReply::TooLong { length }),
    }
}

// What the reply to a request tells of what was asked for.
fn told_by(
    alloc: Global,
    work: &Work,
    request: Items<u8>,
    reply: Items<u8>,
) -> Result<JobReply, Memory>
    ensures { IfOk result (λ told. Tells work.now request reply told) }
{
    match read_as(alloc, work, reply.as_slice()) {
        Ok(told) => Ok(told),
        Err(ReadError::Memory) => Err(Memory),
        Err(ReadError::Bad(why)) => Ok(JobReply::Bad(BadReply {
            kind: work.kind(),
            request,
            reply,
            why,
        })),
    }
}

// What a reply tells of what was asked for, or its first fault.
fn read_as(alloc: Global, work: &Work, reply: &[u8]) -> Result<JobReply, ReadError>
    ensures { GivesTold work.now reply.now result }
{
    match work {
        Work::Ask { text: _ } => truth_of(alloc, reply),
        Work::Batch { batch } => found_of(alloc, reply, batch.get()),
        Work::Values { batch } => located_of(alloc, reply, batch.get()),
        Work::Service { text: _, columns } => table_of(alloc, reply, columns.as_slice()),
    }
}

fn truth_of(alloc: Global, reply: &[u8]) -> Result<JobReply, ReadError>
    ensures { GivesTruthReply reply.now result }
{
    match read_truth(alloc, reply) {
        Ok(truth) => Ok(JobReply::Truth(truth)),
        Err(error) => Err(error),
    }
}

fn found_of(alloc: Global, reply: &[u8], batch: &Batch) -> Result<JobReply, ReadError>
    ensures { GivesFoundReply reply.now batch.now result }
{
    match read_found(alloc, reply, batch) {
        Ok(founds) => Ok(JobReply::Found(founds)),
        Err(error) => Err(error),
    }
}

fn located_of(alloc: Global, reply: &[u8], batch: &ValuesBatch) -> Result<JobReply, ReadError>
    ensures { GivesLocatedReply reply.now batch.now result }
{
    match read_located(alloc, reply, batch) {
        Ok(founds) => Ok(JobReply::Found(founds)),
        Err(error) => Err(error),
    }
}

fn table_of(alloc: Global, reply: &[u8], columns: &[Name]) -> Result<JobReply, ReadError>
    ensures { GivesTableReply reply.now columns.now result }
{
    match read_table(alloc, reply, columns) {
        Ok(rows) => Ok(JobReply::Table(rows)),
        Err(error) => Err(error),
    }
}
