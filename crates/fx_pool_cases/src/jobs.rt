//! The calls of `fx_pool`. Jobs are for the endpoints at the ports 8001 and 8002, whose numbers are 0 and 1, over one wire that answers
//! by a script: replies with ` | ` between, each as its port, its status and its body. A job is the number of an endpoint and
//! `ask` with a text, `service` with columns, ` | ` and a text, `spaces` with the length of a SERVICE's text of spaces alone, or `batch`
//! with a run, ` | ` and rows.

use crate::checks::{are_sendable, are_within};
use crate::faults::fault_text;
use crate::{flows, sides};
use fx_bound_cases::batches::{batch_of, founds_text};
use fx_bound_cases::values;
use fx_notation::{fields, notation, shown};
use fx_outside::Endpoint;
use fx_pool::{BadReply, Job, JobKind, JobReply, RequestText, Work, run_jobs};
use fx_terms::{Iri, Items};
use fx_wire::ScriptWire;
use fx_wire::script_wires::Answered;
use fx_wire_cases::wires::endpoint;
use std::alloc::Global;
use std::fmt::Write;
use std::sync::Wait;
use std::thread::Threads;

/// What a call gives.
pub fn answer<R: Threads + Wait + Sync>(
    rt: &R,
    alloc: Global,
    call: &str,
    inputs: &[&str],
) -> Option<String> {
    match (call, inputs) {
        ("run_jobs", [replies, jobs @ ..]) => jobs_done(rt, alloc, replies, jobs),
        ("run_flow", [graph, run, rows, block]) => flows::flowed(
            rt, alloc, graph, run, rows, block,
        ),
        ("run_flow with a failure", [graph, run, rows, block, fails]) => {
            flows::failing(rt, alloc, graph, run, rows, block, fails)
        }
        ("run_side_by_side", [graph, runs @ ..]) => sides::together(rt, alloc, graph, runs),
        ("run_side_by_side over two wires", [graph, runs @ ..]) => {
            sides::beside(rt, alloc, graph, runs)
        }
        ("run_side_by_side with a failure", [graph, fails, runs @ ..]) => {
            sides::failing(rt, alloc, graph, fails, runs)
        }
        _ => None,
    }
}

// What came of jobs, and the log behind it.
fn jobs_done<R: Threads + Wait + Sync>(
    rt: &R,
    alloc: Global,
    replies: &str,
    jobs: &[&str],
) -> Option<String> {
    let jobs = jobs_of(alloc, jobs)?;
    let wire = ScriptWire::new(alloc, script(alloc, replies)?).ok()?;
    let mut wires = vec![in alloc; wire].ok()?;
    done_text(rt, alloc, jobs.as_slice(), wires.as_mut_slice())
}

fn done_text<R: Threads + Wait + Sync>(
    rt: &R,
    alloc: Global,
    jobs: &[Job],
    wires: &mut [ScriptWire],
) -> Option<String> {
    let endpoints = vec![in alloc; endpoint(alloc, "8001")?, endpoint(alloc, "8002")?].ok()?;
    let replies = replies_of(rt, alloc, endpoints.as_slice(), jobs, wires)?;
    replies_text(alloc, replies.as_slice(), wires.first()?.log())
}

fn replies_of<R: Threads + Wait + Sync>(
    rt: &R,
    alloc: Global,
    endpoints: &[Endpoint],
    jobs: &[Job],
    wires: &mut [ScriptWire],
) -> Option<Vec<JobReply>> {
    if !are_sendable(endpoints) || !are_within(jobs, endpoints.len()) || jobs.len() > 64 {
        return None;
    }
    if wires.len() != 1 {
        return None;
    }
    run_jobs(rt, alloc, endpoints, jobs, wires).ok()
}

// ---- replies of endpoints

fn script(alloc: Global, replies: &str) -> Option<Vec<(Iri, Vec<u8>)>> {
    let mut script = Vec::new(alloc);
    if !replies.is_empty() {
        for reply in replies.split(" | ") {
            script.push(scripted(alloc, reply)?).ok()?;
        }
    }
    Some(script)
}

fn scripted(alloc: Global, reply: &str) -> Option<(Iri, Vec<u8>)> {
    let (port, rest) = reply.split_once(' ')?;
    let (status, body) = rest.split_once(' ')?;
    let address = format!(in alloc; "http://127.0.0.1:{port}/sparql").ok()?;
    let head = "Content-Type: application/sparql-results+json\r\n\r\n";
    let reply = format!(in alloc; "HTTP/1.1 {status} A\r\n{head}{body}").ok()?;
    Some((Iri::read(alloc, address.as_str()).ok()?, reply.into_bytes()))
}

// ---- jobs

fn jobs_of(alloc: Global, texts: &[&str]) -> Option<Vec<Job>> {
    let mut jobs = Vec::new(alloc);
    for text in texts {
        jobs.push(job_of(alloc, text)?).ok()?;
    }
    Some(jobs)
}

fn job_of(alloc: Global, text: &str) -> Option<Job> {
    let (at, rest) = text.split_once(' ')?;
    let (kind, asked) = rest.split_once(' ')?;
    let at = at.parse::<u32>().ok()?;
    let work = work_of(alloc, kind, asked)?;
    Some(Job { at, work })
}

fn work_of(alloc: Global, kind: &str, asked: &str) -> Option<Work> {
    match kind {
        "ask" => Some(Work::Ask {
            text: RequestText::of(shown::word(alloc, asked)?),
        }),
        "service" => service_of(alloc, asked),
        "spaces" => spaces_of(alloc, asked),
        "batch" => batch_work(alloc, asked),
        "values" => values_work(alloc, asked),
        _ => None,
    }
}

fn service_of(alloc: Global, asked: &str) -> Option<Work> {
    let (columns, text) = asked.split_once(" | ")?;
    Some(Work::Service {
        text: RequestText::of(shown::word(alloc, text)?),
        columns: Items::from_vec(notation::names(alloc, columns)?),
    })
}

fn spaces_of(alloc: Global, count: &str) -> Option<Work> {
    let text = spaces(alloc, count.parse::<usize>().ok()?)?;
    Some(Work::Service {
        text: RequestText::of(text),
        columns: Items::new(alloc),
    })
}

// So many spaces, most of them 65,536 at a time.
fn spaces(alloc: Global, count: usize) -> Option<String> {
    let many = " ".repeat(alloc, 65_536).ok()?;
    let rest = " ".repeat(alloc, count % 65_536).ok()?;
    let mut text = many.as_str().repeat(alloc, count / 65_536).ok()?;
    text.push_str(rest.as_str()).ok()?;
    Some(text)
}

fn batch_work(alloc: Global, asked: &str) -> Option<Work> {
    let (run, rows) = asked.split_once(" | ")?;
    let batch = batch_of(alloc, run, rows)?;
    Some(Work::Batch { batch })
}

fn values_work(alloc: Global, asked: &str) -> Option<Work> {
    let (run, rows) = asked.split_once(" | ")?;
    let batch = values::batch_of(alloc, run, rows)?;
    Some(Work::Values { batch })
}

// ---- what came of them

fn replies_text(alloc: Global, replies: &[JobReply], log: &[Answered]) -> Option<String> {
    let mut text = String::new(alloc);
    for reply in replies {
        let reply = reply_text(alloc, reply, log)?;
        write!(text, "{reply} ;; ").ok()?;
    }
    push_log(&mut text, log)?;
    Some(text)
}

fn reply_text(alloc: Global, reply: &JobReply, log: &[Answered]) -> Option<String> {
    match reply {
        JobReply::Truth(truth) => shown::truth(alloc, *truth),
        JobReply::Found(founds) => founds_text(alloc, founds.as_slice()),
        JobReply::Table(rows) => shown::rows(alloc, rows.as_slice()),
        JobReply::Failed => shown::word(alloc, "Failed"),
        JobReply::Bad(bad) => bad_text(alloc, bad, log),
        JobReply::TooLong { length } => format!(in alloc; "TooLong {length}").ok(),
    }
}

// The kind of the job, the first fault of the reply, and the place of the exchange in the log.
fn bad_text(alloc: Global, bad: &BadReply, log: &[Answered]) -> Option<String> {
    let kind = kind_text(bad.kind);
    let why = fault_text(alloc, bad.why)?;
    let place = log.iter().position(|exchange| is_its(exchange, bad))?;
    format!(in alloc; "Bad {kind} {why} by exchange {place}").ok()
}

fn is_its(exchange: &Answered, bad: &BadReply) -> bool {
    exchange.request.as_slice() == bad.request.as_slice()
        && exchange.reply.as_slice() == bad.reply.as_slice()
}

fn kind_text(kind: JobKind) -> &'static str {
    match kind {
        JobKind::Ask => "Ask",
        JobKind::Batch => "Batch",
        JobKind::Values => "Values",
        JobKind::Service => "Service",
    }
}

// The port and the text of each exchange.
fn push_log(text: &mut String, log: &[Answered]) -> Option<()> {
    text.push_str("log").ok()?;
    for exchange in log {
        let body = fields::body(exchange.request.as_slice())?;
        let port = exchange.at.port();
        write!(text, " {port} {body};").ok()?;
    }
    Some(())
}
