//! The mediator over several wires: the answer of a query over the union of the graphs of a registry's endpoints, and its plan. A member that may be left out is, where it fails.
ghost use Rattle.std.specs.Prelude.{◌≡◌, ◌<◌, ◌≤◌, All, None, length, true};
ghost use Rattle.fx_outside.specs.Endpoints.{is_sendable};
ghost use Rattle.fx_spelling.specs.Units.{IsFit};
ghost use Rattle.fx_side_by_side.specs.SideBySide.{CanAsk};
ghost use Rattle.fx_walks.specs.Unknown.{unknown_of};
ghost use Rattle.fx_grammar.specs.Accepted.{IsSpellable};
ghost use Rattle.fx_outcomes.specs.InRounds.{FederatedInRoundsOver, PlannedInRoundsOver};
ghost use Rattle.fx_traffic.specs.Gains.{seen};

use crate::hands::ByCalls;
use crate::questions::Question;
use crate::rounds::{behind_asks, plan_behind_asks};
use fx_algebra::{Query, Row, Solution, Unit};
use fx_flows::{FlowError, run_flow};
use fx_outcomes::members::ask_members;
use fx_outcomes::{FedError, Options, OutcomeInRounds, PlanInRounds, named};
use fx_outside::Endpoint;
use fx_pool::{Job, JobReply, run_jobs};
use fx_services::DoesJobs;
use fx_side_by_side::{DoesFlows, run_side_by_side};
use fx_sources::{AskCache, Registry, missing};
use fx_terms::{Items, Memory};
use fx_walks::unknown::unknown_service;
use fx_wire::Wire;
use std::alloc::Global;
use std::sync::Wait;
use std::thread::Threads;

/// The answer of a query over the union of the graphs of the registry's endpoints, as if they were one graph.
///
/// First each endpoint is asked which triple patterns outside SERVICE fit its graph, unless the cache holds the answer. The endpoints whose graphs a pattern
/// fits are its sources. A member that is marked as optional, and has no answer to one of these ASKs, is left out. Then the query is evaluated over the members that are kept, in rounds.
///
/// In a round each occurrence of SERVICE is invoked, once: all side by side, whatever becomes of the others. Its group is asked for by one text, which goes
/// to the endpoint that has its IRI as its address. Then the runs are asked for in text order. The patterns of a run whose only source is one and the same endpoint are
/// asked for together, each other pattern by itself, in the order of the plan that `plan_parts` gives, in batches of at most `block` rows. A run in which a pattern
/// has no source is empty, and nothing more is asked for it. Where a batch is refused at an optional member, since an exchange failed, its reply is bad or its text is too long, that member is
/// left out, the round is abandoned, and the query is evaluated anew over the rest. No ASK is sent again.
///
/// An occurrence of SERVICE SILENT whose exchange fails, whose reply is bad, whose text is too long or whose IRI is unknown gives the one empty solution,
/// and is listed as down. A SERVICE without SILENT has to name an endpoint: `UnknownService` has the first that doesn't, before anything is asked. Of those that fail the
/// first in text order is the refusal, behind that of a run before it in the text; no run behind it is asked for. What a member that isn't optional is refused for ends the call, too.
/// The errors come as `FedError` says.
///
/// The cache learns after the last exchange. After a refusal it is as before; after want of memory each of its entries was there before, or is one
/// of this call's answers.
pub fn federate<R: Threads + Wait + Sync, W: Wire + Send>(
    rt: &R,
    alloc: Global,
    query: &Query,
    registry: &Registry,
    cache: &mut AskCache,
    options: Options,
    wires: &mut [W],
) -> Result<OutcomeInRounds, FedError>
    requires wired { (0 < length wires.old) × (length wires.old ≤ 16) }
    requires block { (0 < options.block) × (options.block ≤ 64) }
    requires spellable { IsSpellable query.now }
    ensures { FederatedInRoundsOver (seen W.Wire wires.old wires.new) registry.now query.now cache.old cache.new options.block result }
{
    let hands = ByCalls {
        jobs: |alloc: Global, endpoints: &[Endpoint], jobs: &[Job], wires: &mut [W]| -> Result<
            Vec<JobReply>,
            Memory,
        >
            requires wired { (0 < length wires.now) × (length wires.now ≤ 16) }
            requires sendable { All (λ e. is_sendable e ≡ true) endpoints.now }
            requires within { All (λ j. j.at < length endpoints.now) jobs.now }
            requires few { length jobs.now < 4294967296 }
        { run_jobs(rt, alloc, endpoints, jobs, wires) },
        flow: |alloc: Global, endpoints: &[Endpoint], units: &[Unit], rows: &[Solution], block: u32, wires: &mut [W]| -> Result<
            Vec<Row>,
            FlowError,
        >
            requires wired { (0 < length wires.now) × (length wires.now ≤ 16) }
            requires sendable { All (λ e. is_sendable e ≡ true) endpoints.now }
            requires some { 0 < length units.now }
            requires fit { All IsFit units.now }
            requires block { (0 < block) × (block ≤ 64) }
            requires within { All (λ u. All (λ at. at < length endpoints.now) u.members) units.now }
        { run_flow(rt, alloc, endpoints, units, rows, block, wires) },
        side_by_side: |alloc: Global, endpoints: &[Endpoint], runs: &[Items<
            Unit,
        >], block: u32, wires: &mut [W]| -> Result<Vec<Result<Items<Row>, FlowError>>, Memory>
            requires wired { (0 < length wires.now) × (length wires.now ≤ 16) }
            requires sendable { All (λ e. is_sendable e ≡ true) endpoints.now }
            requires block { (0 < block) × (block ≤ 64) }
            requires runs { All (CanAsk (length endpoints.now)) runs.now }
        { run_side_by_side(rt, alloc, endpoints, runs, block, wires) },
    };
    federate_by(&hands, alloc, query, registry, cache, options, wires)
}

/// The same, with the requests made as these hands make them.
pub fn federate_by<H: DoesJobs<W> + DoesFlows<W>, W: Wire>(
    hands: &H,
    alloc: Global,
    query: &Query,
    registry: &Registry,
    cache: &mut AskCache,
    options: Options,
    wires: &mut [W],
) -> Result<OutcomeInRounds, FedError>
    requires hands { H.does hands.now × H.flows hands.now }
    requires wired { (0 < length wires.old) × (length wires.old ≤ 16) }
    requires block { (0 < options.block) × (options.block ≤ 64) }
    requires spellable { IsSpellable query.now }
    ensures { FederatedInRoundsOver (seen W.Wire wires.old wires.new) registry.now query.now cache.old cache.new options.block result }
{
    match unknown_service(alloc, query, registry) {
        Err(Memory) => Err(FedError::Memory),
        Ok(Some(iri)) => Err(FedError::UnknownService { iri }),
        Ok(None) => {
            let question = Question {
                query,
                registry,
                block: options.block,
            };
            federate_known(hands, alloc, &question, cache, wires)
        }
    }
}

// The same, where each SERVICE without SILENT names an endpoint.
fn federate_known<H: DoesJobs<W> + DoesFlows<W>, W: Wire>(
    hands: &H,
    alloc: Global,
    question: &Question<'_>,
    cache: &mut AskCache,
    wires: &mut [W],
) -> Result<OutcomeInRounds, FedError>
    requires hands { H.does hands.now × H.flows hands.now }
    requires wired { (0 < length wires.old) × (length wires.old ≤ 16) }
    requires spellable { IsSpellable question.now.query.now }
    requires known { unknown_of question.now.registry.now question.now.query.now ≡ None }
    ensures { FederatedInRoundsOver (seen W.Wire wires.old wires.new) question.now.registry.now question.now.query.now cache.old cache.new question.now.block result }
{
    match missing(alloc, question.query, question.registry, cache) {
        Err(Memory) => Err(FedError::Memory),
        Ok(probes) => match ask_members(
            hands,
            alloc,
            probes,
            question.registry.endpoints(),
            wires,
        ) {
            Err(error) => Err(named(alloc, question.registry.endpoints(), error)),
            Ok(answers) => behind_asks(hands, alloc, question, cache, answers, wires),
        },
    }
}

/// The parts of a query that requests would be sent for, in text order, over the members that answer their ASKs: one that is marked as optional and doesn't is left out. A run of triple patterns
/// outside SERVICE has the units that it would be asked for by, in their order, unless one of its patterns fits no such member's graph.
///
/// Each endpoint is asked which triple patterns fit its graph, unless the cache holds the answer, and nothing else is asked. The cache learns the
/// answers after the last exchange, and the errors come as in `federate`. Endpoints of SERVICE are not asked, but each SERVICE without SILENT has to name
/// one of the registry: `UnknownService` has the first that doesn't, before anything is asked.
pub fn plan_parts<R: Threads + Wait + Sync, W: Wire + Send>(
    rt: &R,
    alloc: Global,
    query: &Query,
    registry: &Registry,
    cache: &mut AskCache,
    wires: &mut [W],
) -> Result<PlanInRounds, FedError>
    requires wired { (0 < length wires.old) × (length wires.old ≤ 16) }
    requires spellable { IsSpellable query.now }
    ensures { PlannedInRoundsOver (seen W.Wire wires.old wires.new) registry.now query.now cache.old cache.new result }
{
    let hands = ByCalls {
        jobs: |alloc: Global, endpoints: &[Endpoint], jobs: &[Job], wires: &mut [W]| -> Result<
            Vec<JobReply>,
            Memory,
        >
            requires wired { (0 < length wires.now) × (length wires.now ≤ 16) }
            requires sendable { All (λ e. is_sendable e ≡ true) endpoints.now }
            requires within { All (λ j. j.at < length endpoints.now) jobs.now }
            requires few { length jobs.now < 4294967296 }
        { run_jobs(rt, alloc, endpoints, jobs, wires) },
        flow: (),
        side_by_side: (),
    };
    plan_parts_by(&hands, alloc, query, registry, cache, wires)
}

/// The same, with the requests made as these hands make them.
pub fn plan_parts_by<H: DoesJobs<W>, W: Wire>(
    hands: &H,
    alloc: Global,
    query: &Query,
    registry: &Registry,
    cache: &mut AskCache,
    wires: &mut [W],
) -> Result<PlanInRounds, FedError>
    requires hands { H.does hands.now }
    requires wired { (0 < length wires.old) × (length wires.old ≤ 16) }
    requires spellable { IsSpellable query.now }
    ensures { PlannedInRoundsOver (seen W.Wire wires.old wires.new) registry.now query.now cache.old cache.new result }
{
    match unknown_service(alloc, query, registry) {
        Err(Memory) => Err(FedError::Memory),
        Ok(Some(iri)) => Err(FedError::UnknownService { iri }),
        Ok(None) => plan_known(hands, alloc, query, registry, cache, wires),
    }
}

// The same, where each SERVICE without SILENT names an endpoint.
fn plan_known<H: DoesJobs<W>, W: Wire>(
    hands: &H,
    alloc: Global,
    query: &Query,
    registry: &Registry,
    cache: &mut AskCache,
    wires: &mut [W],
) -> Result<PlanInRounds, FedError>
    requires hands { H.does hands.now }
    requires wired { (0 < length wires.old) × (length wires.old ≤ 16) }
    requires spellable { IsSpellable query.now }
    requires known { unknown_of registry.now query.now ≡ None }
    ensures { PlannedInRoundsOver (seen W.Wire wires.old wires.new) registry.now query.now cache.old cache.new result }
{
    match missing(alloc, query, registry, cache) {
        Err(Memory) => Err(FedError::Memory),
        Ok(probes) => match ask_members(hands, alloc, probes, registry.endpoints(), wires) {
            Err(error) => Err(named(alloc, registry.endpoints(), error)),
            Ok(answers) => plan_behind_asks(alloc, query, registry, cache, answers),
        },
    }
}
