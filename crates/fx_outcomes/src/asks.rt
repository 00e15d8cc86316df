//! The ASKs of a query, over several wires.
ghost use Rattle.std.specs.Prelude.{◌≡◌, ◌<◌, ◌≤◌, All, IfOk, length, map, true};
ghost use Rattle.fx_outside.specs.Endpoints.{is_sendable};
ghost use Rattle.fx_outcomes.specs.AskSteps as spec;
ghost use Rattle.fx_outcomes.specs.AskSteps.{IsForAsk, IsTruthOf};
ghost use Rattle.fx_traffic.specs.Gains.{seen};
ghost use Rattle.fx_pool.specs.Runs.{WiresDidOver, all_replies};

use fx_flows::FlowError;
use fx_outside::Endpoint;
use fx_pool::{Job, JobReply, RequestText, Work};
use fx_services::DoesJobs;
use fx_sources::{Probe, ask_text};
use fx_terms::Memory;
use fx_wire::Wire;
use std::alloc::Global;

/// The most probes that are asked for at once.
const MOST: usize = 65_536;

// The replies to probes, in their order. The ASK of each goes to its endpoint, once, whatever becomes of the others; they are asked for in pieces of 65,536.
pub(crate) fn replies_to<H: DoesJobs<W>, W: Wire>(
    hands: &H,
    alloc: Global,
    probes: &[Probe],
    endpoints: &[Endpoint],
    wires: &mut [W],
) -> Result<Vec<JobReply>, Memory>
    requires hands { H.does hands.now }
    requires wired { (0 < length wires.old) × (length wires.old ≤ 16) }
    requires sendable { All (λ e. is_sendable e ≡ true) endpoints.now }
    requires within { All (λ p. p.at < length endpoints.now) probes.now }
    ensures { WiresDidOver (seen W.Wire wires.old wires.new) endpoints.now (map spec.job_of probes.now) (all_replies result) }
{
    let mut replies = Vec::new(alloc);
    let mut start = 0;
    while start < probes.len() {
        let end = start + (probes.len() - start).min(MOST);
        match ask_some(hands, alloc, &probes[start..end], endpoints, wires) {
            Err(Memory) => return Err(Memory),
            Ok(mut more) => {
                if replies.append(&mut more).is_err() {
                    return Err(Memory);
                }
            }
        }
        start = end;
    }
    Ok(replies)
}

// The replies to probes that are asked for at once.
fn ask_some<H: DoesJobs<W>, W: Wire>(
    hands: &H,
    alloc: Global,
    probes: &[Probe],
    endpoints: &[Endpoint],
    wires: &mut [W],
) -> Result<Vec<JobReply>, Memory>
    requires hands { H.does hands.now }
    requires wired { (0 < length wires.old) × (length wires.old ≤ 16) }
    requires sendable { All (λ e. is_sendable e ≡ true) endpoints.now }
    requires few { length probes.now ≤ 65536 }
    requires within { All (λ p. p.at < length endpoints.now) probes.now }
    ensures { WiresDidOver (seen W.Wire wires.old wires.new) endpoints.now (map spec.job_of probes.now) (all_replies result) }
{
    match jobs_of(alloc, probes) {
        Err(Memory) => Err(Memory),
        Ok(jobs) => hands.run_jobs(alloc, endpoints, jobs.as_slice(), wires),
    }
}

// The jobs that ask for probes.
fn jobs_of(alloc: Global, probes: &[Probe]) -> Result<Vec<Job>, Memory>
    ensures { IfOk result (λ jobs. jobs.items ≡ map spec.job_of probes.now) }
{
    let mut jobs = Vec::new(alloc);
    for probe in probes {
        let job = job_of(alloc, probe)?;
        if jobs.push(job).is_err() {
            return Err(Memory);
        }
    }
    Ok(jobs)
}

fn job_of(alloc: Global, probe: &Probe) -> Result<Job, Memory>
    ensures { IfOk result (λ job. job ≡ spec.job_of probe.now) }
{
    let text = ask_text(alloc, &probe.key)?;
    Ok(Job {
        at: probe.at,
        work: Work::Ask {
            text: RequestText::of(text),
        },
    })
}

// The truth value that the reply of an endpoint is, or the refusal.
pub(crate) fn truth_of(at: u32, reply: JobReply) -> Result<bool, FlowError>
    requires { IsForAsk reply }
    ensures { IsTruthOf at reply result }
{
    match reply {
        JobReply::Truth(truth) => Ok(truth),
        JobReply::Failed => Err(FlowError::Member { at }),
        JobReply::Bad(bad) => Err(FlowError::BadReply { at, bad }),
        JobReply::TooLong { length } => Err(FlowError::RequestTooLong { at, length }),
        JobReply::Found(_) => unreachable!(),
        JobReply::Table(_) => unreachable!(),
    }
}
