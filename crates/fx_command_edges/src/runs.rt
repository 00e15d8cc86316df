//! A run of bound joins over several wires at once.

use crate::pools::have_ended;
use crate::tests::{files, run_words};
use fx_outside::Endpoint;
use fx_wire::{Wire, WireError};
use std::alloc::Global;
use std::str;
use std::sync::Wait;
use std::sync::atomic::{AtomicU64, Ordering};
use std::thread::Threads;

const YES: &str =
    "HTTP/1.1 200 OK\r\nContent-Type: application/sparql-results+json\r\n\r\n{\"head\":{},\"boolean\":true}";

const NO_ROWS: &str =
    "HTTP/1.1 200 OK\r\nContent-Type: application/sparql-results+json\r\n\r\n{\"head\":{\"vars\":[]},\"results\":{\"bindings\":[]}}";

const NO: &str =
    "HTTP/1.1 200 OK\r\nContent-Type: application/sparql-results+json\r\n\r\n{\"head\":{},\"boolean\":false}";

const FOUR_ROWS: &str =
    "HTTP/1.1 200 OK\r\nContent-Type: application/sparql-results+json\r\n\r\n{\"head\":{\"vars\":[\"v1_0\"]},\"results\":{\"bindings\":[{\"v1_0\":{\"type\":\"uri\",\"value\":\"http://e/a\"}},{\"v1_0\":{\"type\":\"uri\",\"value\":\"http://e/b\"}},{\"v1_0\":{\"type\":\"uri\",\"value\":\"http://e/c\"}},{\"v1_0\":{\"type\":\"uri\",\"value\":\"http://e/d\"}}]}}";

const REGISTRY: &str =
    "Amsterdam http://127.0.0.1:8001/sparql\nBerlin http://127.0.0.1:8002/sparql\nCairo http://127.0.0.1:8003/sparql\nDelhi http://127.0.0.1:8004/sparql\n";

// Four rows, each of which is a batch of its own.
const ONE_UNIT: &str =
    "SELECT * WHERE { VALUES ?x { <http://e/a> <http://e/b> <http://e/c> <http://e/d> } ?x <http://e/p> ?y }";

// One row, of which the first unit makes those four.
const TWO_UNITS: &str =
    "SELECT * WHERE { VALUES ?x { <http://e/s> } ?x <http://e/q> ?y . ?y <http://e/p> ?z }";

// One row, which is one batch for four endpoints.
const FOUR_MEMBERS: &str = "SELECT * WHERE { VALUES ?x { <http://e/a> } ?x <http://e/r> ?y }";

// Four groups of a UNION, each of which has one batch for one endpoint.
const FOUR_GROUPS: &str =
    "SELECT * WHERE { { ?x <http://e/p> <http://e/a> } UNION { ?x <http://e/p> <http://e/b> } UNION { ?x <http://e/p> <http://e/c> } UNION { ?x <http://e/p> <http://e/d> } }";

// A wire whose exchange of the batch with one row, or with one endpoint, ends only when those of the three others have ended, and fails where it never sees that. All others are
// answered at once: an ASK by whether the endpoint has the pattern, Amsterdam for `q`, Berlin for `p` and each for `r`; a batch for `q` with four rows, and one for
// `p` or `r` with none.
#[derive(Drop)]
struct RunWire<'a> {
    ended: &'a AtomicU64,
    slow: &'a str,
    faults: u64,
}

impl Wire for RunWire<'_> {
    ghost use Rattle.std.specs.Prelude.{false, refl, [], None};

    ghost tells_log = { false };

    ghost seen = { λ wire. record { tells_log = false; log = []; graph = λ _. None; faults = λ _. wire.faults } };

    ghost counts_alone = { false };

    ghost told = { λ _. refl };

    fn exchange(
        &mut self,
        alloc: Global,
        _at: &Endpoint,
        request: &[u8],
        limit: u64,
    ) -> Result<Vec<u8>, WireError> {
        let Some(text) = text_for(request, self.slow, self.ended) else {
            if self.faults == u64::MAX {
                return Err(WireError::Memory);
            }
            self.faults += 1;
            return Err(WireError::Failed);
        };
        let most = text.len().min(limit as usize);
        Ok(Vec::from_slice(alloc, &text.as_bytes()[..most])?)
    }
}

// The reply to a request; none where it is the slow one, and the others haven't ended.
fn text_for(request: &[u8], slow: &str, ended: &AtomicU64) -> Option<&'static str> {
    if has(request, "ASK") {
        return Some(if is_source(request) { YES } else { NO });
    }
    if has(request, "<http://e/q>") {
        return Some(FOUR_ROWS);
    }
    if has(request, slow) && !have_ended(ended) {
        return None;
    }
    ended.fetch_add(1, Ordering::SeqCst);
    Some(NO_ROWS)
}

// Whether an ASK goes to an endpoint that has its pattern.
fn is_source(request: &[u8]) -> bool {
    if has(request, "<http://e/r>") {
        true
    } else if has(request, "<http://e/q>") {
        has(request, "127.0.0.1:8001")
    } else {
        has(request, "127.0.0.1:8002")
    }
}

fn has(request: &[u8], text: &str) -> bool {
    str::from_utf8(request).is_ok_and(|request| request.contains(text))
}

// Whichever of four batches of a run waits for the three others, two wires do them all. A run on one thread fails where the batch that it does first waits,
// and one that gives each worker two fixed batches fails where the first of a worker's waits.
#[test]
fn two_wires_at_once_in_a_run(rt: HostRuntime) {
    assert_eq!(rt; first_slow_amiss(&rt, rt.alloc(), ONE_UNIT), None);
}

// So it is of the batches that come of the first unit's one batch.
#[test]
fn two_wires_at_once_behind_the_first_unit(rt: HostRuntime) {
    assert_eq!(rt; first_slow_amiss(&rt, rt.alloc(), TWO_UNITS), None);
}

// The first of the four rows whose batch can't wait for the others without a failure.
fn first_slow_amiss<R: Threads + Wait + Sync>(
    rt: &R,
    alloc: Global,
    query: &str,
) -> Option<&'static str> {
    for slow in ["http://e/a", "http://e/b", "http://e/c", "http://e/d"] {
        if code_of(rt, alloc, query, slow) != Some(0) {
            return Some(slow);
        }
    }
    None
}

// Whichever of the four endpoints of one batch waits for the three others, four wires ask them all. A run that asks the endpoints of a batch one after another fails
// where any but the last waits.
#[test]
fn four_members_at_once(rt: HostRuntime) {
    assert_eq!(rt; first_slow_member_amiss(&rt, rt.alloc()), None);
}

// The first of the four endpoints whose reply can't wait for the others without a failure.
fn first_slow_member_amiss<R: Threads + Wait + Sync>(
    rt: &R,
    alloc: Global,
) -> Option<&'static str> {
    for slow in [
        "127.0.0.1:8001",
        "127.0.0.1:8002",
        "127.0.0.1:8003",
        "127.0.0.1:8004",
    ] {
        if code_over_four(rt, alloc, FOUR_MEMBERS, slow) != Some(0) {
            return Some(slow);
        }
    }
    None
}

// Whichever of the batches of four groups of a UNION waits for the three others, four wires ask for them all. A body that asks for one group after the other fails where any
// but the last waits.
#[test]
fn four_groups_of_a_union_at_once(rt: HostRuntime) {
    assert_eq!(rt; first_slow_group_amiss(&rt, rt.alloc()), None);
}

// The object of the first of the four groups whose batch can't wait for the others without a failure.
fn first_slow_group_amiss<R: Threads + Wait + Sync>(rt: &R, alloc: Global) -> Option<&'static str> {
    for slow in ["http://e/a", "http://e/b", "http://e/c", "http://e/d"] {
        if code_over_four(rt, alloc, FOUR_GROUPS, slow) != Some(0) {
            return Some(slow);
        }
    }
    None
}

// How `query` ends over four wires, where the batch with this text waits for the others.
fn code_over_four<R: Threads + Wait + Sync>(
    rt: &R,
    alloc: Global,
    query: &str,
    slow: &str,
) -> Option<u8> {
    let ended = AtomicU64::new(0);
    let mut files = files(alloc, REGISTRY, query)?;
    let mut wires = [
        wire(&ended, slow),
        wire(&ended, slow),
        wire(&ended, slow),
        wire(&ended, slow),
    ];
    let ended = run_words(rt, alloc, &["--workers", "4"], &mut files, &mut wires)?;
    Some(ended.code)
}

// How `query` ends over two wires in batches of one row, where the batch with this row waits for the others.
fn code_of<R: Threads + Wait + Sync>(rt: &R, alloc: Global, query: &str, slow: &str) -> Option<u8> {
    let ended = AtomicU64::new(0);
    let mut files = files(alloc, REGISTRY, query)?;
    let mut wires = [wire(&ended, slow), wire(&ended, slow)];
    let further = ["--workers", "2", "--block", "1"];
    let ended = run_words(rt, alloc, &further, &mut files, &mut wires)?;
    Some(ended.code)
}

fn wire<'a>(ended: &'a AtomicU64, slow: &'a str) -> RunWire<'a> {
    RunWire {
        ended,
        slow,
        faults: 0,
    }
}
