//! What the calls of each table give.

use crate::{counting, devices, runs, served};
use fx_bound_cases::batches;
use fx_mediator_cases::{engine, gateways, mediations};
use fx_plan_cases::{plans, registries, sources};
use fx_pool_cases::jobs;
use fx_tape_cases::tapes;
use fx_text_cases::{
    algebra, expressions, ntriples, print, results, solutions, syntax, terms, tokens,
};
use fx_wire_cases::{members, outside, requests, stores, wires};
use std::alloc::Global;
use std::sync::Wait;
use std::thread::Threads;

/// What the call of this name gives for its input, as a text. Gives nothing where the table has no such call, its input can't be read,
/// or memory ran out.
pub fn answer<R: Threads + Wait + Sync>(
    rt: &R,
    alloc: Global,
    table: &str,
    call: &str,
    inputs: &[&str],
) -> Option<String> {
    match table {
        "jobs" => jobs::answer(rt, alloc, call, inputs),
        "engine" => engine::answer(rt, alloc, call, inputs),
        "mediations" => mediations::answer(rt, alloc, call, inputs),
        "gateway" => gateways::answer(rt, alloc, call, inputs),
        "commands" => counting::answer(rt, alloc, call, inputs),
        "served" => served::answer(rt, alloc, call, inputs),
        "devices" => devices::answer(rt, alloc, call, inputs),
        "runs" | "hostile" | "drawn" => runs::answer(rt, alloc, call, inputs),
        _ => of_one_thread(alloc, table, call, inputs),
    }
}

// What a call gives that starts no threads.
fn of_one_thread(alloc: Global, table: &str, call: &str, inputs: &[&str]) -> Option<String> {
    match table {
        "terms" => terms::answer(alloc, call, inputs),
        "ntriples" => ntriples::answer(alloc, call, inputs),
        "tokens" => tokens::answer(alloc, call, inputs),
        "algebra" => algebra::answer(alloc, call, inputs),
        "expressions" => expressions::answer(alloc, call, inputs),
        "syntax" => syntax::answer(alloc, call, inputs),
        "print" => print::answer(alloc, call, inputs),
        "results" => results::answer(alloc, call, inputs),
        "solutions" => solutions::answer(alloc, call, inputs),
        "tapes" => tapes::answer(alloc, call, inputs),
        _ => of_members_and_plans(alloc, table, call, inputs),
    }
}

fn of_members_and_plans(alloc: Global, table: &str, call: &str, inputs: &[&str]) -> Option<String> {
    match table {
        "outside" => outside::answer(alloc, call, inputs),
        "requests" => requests::answer(alloc, call, inputs),
        "stores" => stores::answer(alloc, call, inputs),
        "wires" => wires::answer(alloc, call, inputs),
        "members" => members::answer(alloc, call, inputs),
        "registries" => registries::answer(alloc, call, inputs),
        "sources" => sources::answer(alloc, call, inputs),
        "plans" => plans::answer(alloc, call, inputs),
        "batches" => batches::answer(alloc, call, inputs),
        _ => None,
    }
}
