//! Occurrences of SERVICE, invoked side by side (SPARQL 1.1 Federated Query, sections 2 and 4).
ghost use Rattle.std.specs.Prelude.{◌≡◌, ◌<◌, ◌≤◌, IfOk, length};
ghost use Rattle.fx_pool.specs.Runs.{WiresDidOver, all_replies};
ghost use Rattle.fx_traffic.specs.Gains.{seen};
ghost use Rattle.fx_services.specs.Beside as spec;
ghost use Rattle.fx_services.specs.Noted as noted;
ghost use Rattle.fx_sources.specs.Registries.{number_of};

use crate::doing::DoesJobs;
use crate::noted::{Down, note_down};
use crate::services::{ServiceError, job_of, rows_in};
use fx_algebra::{Group, Solution};
use fx_pool::{Job, JobReply};
use fx_sources::Registry;
use fx_terms::{Iri, Items, Memory};
use fx_wire::Wire;
use std::alloc::Global;
use std::marker::Model;

/// The most occurrences that are invoked at once.
const MOST: usize = 65_536;

/// An occurrence of SERVICE of a query, which owns it.
#[derive(Drop)]
pub struct Occurrence<'a> {
    pub silent: bool,
    pub iri: &'a Iri,
    pub group: &'a Group,
}

impl<'a> Model for Occurrence<'a> {
    ghost use Rattle.std.specs.Coded.{codes};
    ghost use Rattle.fx_algebra.specs.contracts.queries.Group as tree;
    ghost use Rattle.fx_services.specs.Beside.{Occurrence as Occurred};

    ghost Value = { Occurred };

    ghost coded = { Prim.hlevel (codes, tree.the_row.coded) };

    ghost view = { λ o. record { silent = o.silent; iri = o.iri.now; group = o.group.now } };
}

/// What a query goes on with behind its occurrences of SERVICE.
#[derive(Drop)]
pub struct Settled {
    /// The rows of each that passed, in text order, up to the one that was refused, where there is one. One that is down has the one empty solution.
    pub rows: Vec<Items<Solution>>,
    /// Those of them that are down, by their places in text order.
    pub down: Vec<Down>,
    /// Why the first without SILENT that has no rows has none.
    pub refused: Option<ServiceError>,
}

/// What occurrences of SERVICE come to, in their order: the rows of each over the graph at its IRI, in some order, or why there are none.
///
/// The text of each, a SELECT with its group's scope as columns, is sent once to the endpoint of the registry whose address is its IRI, character by character, and
/// nowhere else: each wire sends the next that no other has begun. Nothing is sent for one whose endpoint the registry doesn't have, or whose text is longer than 67,108,864
/// bytes. Each is invoked whatever becomes of the others, in pieces of 65,536; where memory runs out, those of later pieces aren't.
pub fn ask_services<H: DoesJobs<W>, W: Wire>(
    hands: &H,
    alloc: Global,
    asked: &[Occurrence<'_>],
    registry: &Registry,
    wires: &mut [W],
) -> Result<Vec<Result<Items<Solution>, ServiceError>>, Memory>
    requires hands { H.does hands.now }
    requires wired { (0 < length wires.old) × (length wires.old ≤ 16) }
    requires servable { spec.AreServable asked.now }
    ensures { spec.AllInvokedOver (seen W.Wire wires.old wires.new) registry.now asked.now (spec.came_in result) }
{
    let mut replies = Vec::new(alloc);
    let mut start = 0;
    while start < asked.len() {
        let end = start + (asked.len() - start).min(MOST);
        match ask_some(hands, alloc, &asked[start..end], registry, wires) {
            Err(Memory) => return Err(Memory),
            Ok(mut more) => {
                if replies.append(&mut more).is_err() {
                    return Err(Memory);
                }
            }
        }
        start = end;
    }
    told_of(alloc, asked, registry, replies)
}

// The replies to occurrences that are invoked at once.
fn ask_some<H: DoesJobs<W>, W: Wire>(
    hands: &H,
    alloc: Global,
    asked: &[Occurrence<'_>],
    registry: &Registry,
    wires: &mut [W],
) -> Result<Vec<JobReply>, Memory>
    requires hands { H.does hands.now }
    requires wired { (0 < length wires.old) × (length wires.old ≤ 16) }
    requires few { length asked.now ≤ 65536 }
    ensures { WiresDidOver (seen W.Wire wires.old wires.new) registry.now (spec.jobs_of registry.now asked.now) (all_replies result) }
{
    match jobs_of(alloc, asked, registry) {
        Err(Memory) => Err(Memory),
        Ok(jobs) => hands.run_jobs(alloc, registry.endpoints(), jobs.as_slice(), wires),
    }
}

// The jobs of those whose endpoint is known.
fn jobs_of(alloc: Global, asked: &[Occurrence<'_>], registry: &Registry) -> Result<Vec<Job>, Memory>
    ensures jobs { IfOk result (λ jobs. jobs.items ≡ spec.jobs_of registry.now asked.now) }
{
    let mut jobs = Vec::new(alloc);
    for occurrence in asked {
        if let Some(at) = endpoint_of(registry, occurrence) {
            let job = job_of(alloc, at, occurrence.group)?;
            if jobs.push(job).is_err() {
                return Err(Memory);
            }
        }
    }
    Ok(jobs)
}

// The endpoint that is asked for an occurrence, by its number.
fn endpoint_of(registry: &Registry, occurrence: &Occurrence<'_>) -> Option<u32>
    ensures { result ≡ number_of occurrence.now.iri registry.now }
{
    registry.find(occurrence.iri)
}

// What the replies tell, with a reason for each that is unknown.
fn told_of(
    alloc: Global,
    asked: &[Occurrence<'_>],
    registry: &Registry,
    replies: Vec<JobReply>,
) -> Result<Vec<Result<Items<Solution>, ServiceError>>, Memory>
    requires { spec.AreRepliesFor registry.now asked.now replies.items }
    ensures { IfOk result (λ came. spec.AreToldOf registry.now asked.now replies.items came.items) }
{
    let mut came = Vec::new(alloc);
    let mut replies = replies.into_iter();
    for occurrence in asked {
        let one = match endpoint_of(registry, occurrence) {
            None => Err(ServiceError::Unknown),
            Some(at) => match replies.next() {
                None => unreachable!(),
                Some(reply) => rows_in(at, reply),
            },
        };
        if came.push(one).is_err() {
            return Err(Memory);
        }
    }
    Ok(came)
}

/// What a query goes on with, by what its occurrences of SERVICE came to, both in text order.
///
/// One with SILENT that has no rows gives the one empty solution, and is down under its place. Of those without SILENT that have none the first in text order is refused,
/// and nothing of those behind it is kept.
pub fn settle(
    alloc: Global,
    asked: &[Occurrence<'_>],
    came: Vec<Result<Items<Solution>, ServiceError>>,
) -> Result<Settled, Memory>
    requires { length came.items ≡ length asked.now }
    ensures { IfOk result (spec.AreSettled asked.now came.items) }
{
    let mut rows = Vec::new(alloc);
    let mut down = Vec::new(alloc);
    let mut came = came.into_iter();
    for occurrence in asked {
        let Some(one) = came.next() else {
            unreachable!()
        };
        let number = rows.len() as u64;
        match come_to(alloc, number, occurrence, one, &mut down) {
            Err(Memory) => return Err(Memory),
            Ok(Err(error)) => {
                let refused = Some(error);
                return Ok(Settled {
                    rows,
                    down,
                    refused,
                });
            }
            Ok(Ok(found)) => {
                if rows.push(found).is_err() {
                    return Err(Memory);
                }
            }
        }
    }
    let refused = None;
    Ok(Settled {
        rows,
        down,
        refused,
    })
}

// What an occurrence comes to: its rows, or why it is refused.
fn come_to(
    alloc: Global,
    number: u64,
    occurrence: &Occurrence<'_>,
    came: Result<Items<Solution>, ServiceError>,
    down: &mut Vec<Down>,
) -> Result<Result<Items<Solution>, ServiceError>, Memory>
    ensures { IfOk result (noted.ComesTo number occurrence.now.silent occurrence.now.iri down.old.items down.new.items came) }
{
    match came {
        Ok(rows) => Ok(Ok(rows)),
        Err(error) => {
            if occurrence.silent {
                match note_down(alloc, number, occurrence.iri, error, down) {
                    Err(Memory) => Err(Memory),
                    Ok(rows) => Ok(Ok(rows)),
                }
            } else {
                Ok(Err(error))
            }
        }
    }
}
