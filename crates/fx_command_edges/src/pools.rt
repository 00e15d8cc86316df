//! Jobs over several wires at once.
ghost use Rattle.std.specs.Prelude.{◌≡◌, ◌<◌, All, IsTrue, length, true};
ghost use Rattle.fx_outside.specs.Endpoints.{is_sendable};

use fx_outside::Endpoint;
use fx_pool::{Job, JobReply, RequestText, Work, run_jobs};
use fx_terms::Iri;
use fx_wire::{Wire, WireError};
use std::alloc::Global;
use std::sync::Wait;
use std::sync::atomic::{AtomicU64, Ordering};
use std::thread::Threads;

const YES: &str =
    "HTTP/1.1 200 OK\r\nContent-Type: application/sparql-results+json\r\n\r\n{\"head\":{},\"boolean\":true}";

// What the four jobs ask.
const TEXTS: [&str; 4] = [
    "ASK { ?a ?b 0 }",
    "ASK { ?a ?b 1 }",
    "ASK { ?a ?b 2 }",
    "ASK { ?a ?b 3 }",
];

// How many turns the slow exchange looks for the others.
const TURNS: u32 = 200_000_000;

// A wire whose exchange of one text ends only when three others have ended, and fails where it never sees that. All others are answered
// with yes at once.
#[derive(Drop)]
struct MeetingWire<'a> {
    ended: &'a AtomicU64,
    slow: &'a str,
    faults: u64,
}

impl Wire for MeetingWire<'_> {
    ghost use Rattle.std.specs.Prelude.{false, refl, [], None};

    ghost tells_log = { false };

    ghost seen = { λ wire. record { tells_log = false; log = []; graph = λ _. None; faults = λ _. wire.faults } };

    ghost counts_alone = { false };

    ghost told = { λ _. refl };

    fn exchange(
        &mut self,
        alloc: Global,
        _at: &Endpoint,
        request: &[u8],
        limit: u64,
    ) -> Result<Vec<u8>, WireError> {
        if request.ends_with(self.slow.as_bytes()) && !have_ended(self.ended) {
            if self.faults == u64::MAX {
                return Err(WireError::Memory);
            }
            self.faults += 1;
            return Err(WireError::Failed);
        }
        self.ended.fetch_add(1, Ordering::SeqCst);
        let most = YES.len().min(limit as usize);
        Ok(Vec::from_slice(alloc, &YES.as_bytes()[..most])?)
    }
}

// Whether the three other exchanges are seen to have ended.
pub(crate) fn have_ended(ended: &AtomicU64) -> bool {
    for _ in 0..TURNS {
        if ended.load(Ordering::SeqCst) >= 3 {
            return true;
        }
    }
    false
}

// Whichever of four jobs waits for the three others, two wires do them all: the other wire does what is left. A pool on one thread fails where
// the job that it does first waits, and one that gives each worker two fixed jobs fails where the first of a worker's waits.
#[test]
fn two_wires_at_once(rt: HostRuntime) {
    assert_eq!(rt; first_slow_amiss(&rt, rt.alloc()), None);
}

// The first of the four texts whose job can't wait for the others without a failure.
fn first_slow_amiss<R: Threads + Wait + Sync>(rt: &R, alloc: Global) -> Option<&'static str> {
    for slow in TEXTS {
        if all_are_answered(rt, alloc, slow) != Some(true) {
            return Some(slow);
        }
    }
    None
}

// Whether two wires answer all jobs, where that of this text waits for the others.
fn all_are_answered<R: Threads + Wait + Sync>(rt: &R, alloc: Global, slow: &str) -> Option<bool> {
    let endpoints = vec![in alloc; endpoint(alloc)?].ok()?;
    let jobs = jobs(alloc, &TEXTS)?;
    if !are_sendable(endpoints.as_slice()) || !are_within(jobs.as_slice(), endpoints.len()) {
        return Some(false);
    }
    are_answered(rt, alloc, endpoints.as_slice(), jobs.as_slice(), slow)
}

fn are_answered<R: Threads + Wait + Sync>(
    rt: &R,
    alloc: Global,
    endpoints: &[Endpoint],
    jobs: &[Job],
    slow: &str,
) -> Option<bool>
    requires sendable { All (λ e. is_sendable e ≡ true) endpoints.now }
    requires within { All (λ j. j.at < length endpoints.now) jobs.now }
{
    let ended = AtomicU64::new(0);
    let mut wires = [wire(&ended, slow), wire(&ended, slow)];
    if jobs.len() > 4 {
        return Some(false);
    }
    match run_jobs(rt, alloc, endpoints, jobs, &mut wires) {
        Ok(replies) => Some(replies.len() == 4 && replies.iter().all(is_yes)),
        Err(_) => None,
    }
}

fn wire<'a>(ended: &'a AtomicU64, slow: &'a str) -> MeetingWire<'a> {
    MeetingWire {
        ended,
        slow,
        faults: 0,
    }
}

fn is_yes(reply: &JobReply) -> bool {
    matches!(reply, JobReply::Truth(true))
}

fn jobs(alloc: Global, texts: &[&str]) -> Option<Vec<Job>> {
    let mut jobs = Vec::new(alloc);
    for text in texts {
        jobs.push(job(alloc, text)?).ok()?;
    }
    Some(jobs)
}

fn job(alloc: Global, text: &str) -> Option<Job> {
    let text = RequestText::of(String::from_str(alloc, text).ok()?);
    Some(Job {
        at: 0,
        work: Work::Ask { text },
    })
}

fn endpoint(alloc: Global) -> Option<Endpoint> {
    let iri = Iri::read(alloc, "http://127.0.0.1:8001/sparql").ok()?;
    let host = String::from_str(alloc, "127.0.0.1").ok()?;
    let target = String::from_str(alloc, "/sparql").ok()?;
    let name = String::from_str(alloc, "A").ok()?;
    Some(Endpoint::new(name, iri, host, 8001, target))
}

fn are_sendable(endpoints: &[Endpoint]) -> bool
    ensures { IsTrue result → All (λ e. is_sendable e ≡ true) endpoints.now }
{
    endpoints.iter().all(can_be_sent_to)
}

fn can_be_sent_to(endpoint: &Endpoint) -> bool
    ensures { IsTrue result → is_sendable endpoint.now ≡ true }
{
    endpoint.is_sendable()
}

fn are_within(jobs: &[Job], count: usize) -> bool
    ensures { IsTrue result → All (λ j. j.at < count) jobs.now }
{
    jobs.iter().all(|job| is_below(job, count))
}

fn is_below(job: &Job, count: usize) -> bool
    ensures { IsTrue result → job.now.at < count }
{
    (job.at as usize) < count
}
