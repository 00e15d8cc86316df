//! The ASKs of a query, of which members that may be left out need not answer.
ghost use Rattle.std.specs.Prelude.{◌≡◌, ◌<◌, ◌≤◌, All, IfOk, OnOk, length, map, true};
ghost use Rattle.std.specs.List.{zip};
ghost use Rattle.fx_outside.specs.Endpoints.{is_sendable};
ghost use Rattle.fx_spelling.specs.Printable.{IsTriple};
ghost use Rattle.fx_outcomes.specs.AskSteps.{IsForAsk};
ghost use Rattle.fx_outcomes.specs.Rounds.{AskedMembersOver, IsMarked};
ghost use Rattle.fx_outcomes.specs.Sorting as spec;
ghost use Rattle.fx_traffic.specs.Gains.{seen};

use crate::asks::{replies_to, truth_of};
use crate::rounds::{Answers, left_by};
use fx_flows::FlowError;
use fx_outside::Endpoint;
use fx_pool::JobReply;
use fx_services::DoesJobs;
use fx_sources::Probe;
use fx_terms::Memory;
use fx_wire::Wire;
use std::alloc::Global;

/// What the endpoints answer to probes, and who is left out for it.
///
/// The ASK of each probe's key goes to the probe's endpoint, once, whatever becomes of the others. A member that is marked as optional and has no answer to one of
/// its probes is left out, for the first of these. What it answered to others is among the answers. Where a member that isn't marked has none, the refusal is that of
/// the first such probe. The errors come as in `ask_all`.
pub fn ask_members<H: DoesJobs<W>, W: Wire>(
    hands: &H,
    alloc: Global,
    probes: Vec<Probe>,
    endpoints: &[Endpoint],
    wires: &mut [W],
) -> Result<Answers, FlowError>
    requires hands { H.does hands.now }
    requires wired { (0 < length wires.old) × (length wires.old ≤ 16) }
    requires sendable { All (λ e. is_sendable e ≡ true) endpoints.now }
    requires within { All (λ p. p.at < length endpoints.now) probes.items }
    requires triples { All (λ p. IsTriple p.key.pattern) probes.items }
    ensures { AskedMembersOver (seen W.Wire wires.old wires.new) endpoints.now probes.items result }
{
    match replies_to(hands, alloc, probes.as_slice(), endpoints, wires) {
        Err(Memory) => Err(FlowError::Memory),
        Ok(replies) => sorted_out(alloc, probes, replies, endpoints),
    }
}

// The answers that replies to probes are, and who is left out for want of one; or the first refusal at a member that mustn't be.
fn sorted_out(
    alloc: Global,
    probes: Vec<Probe>,
    replies: Vec<JobReply>,
    endpoints: &[Endpoint],
) -> Result<Answers, FlowError>
    requires asked { All IsForAsk replies.items }
    requires within { All (λ p. p.at < length endpoints.now) probes.items }
    ensures { spec.AreSortedOut endpoints.now (zip probes.items replies.items) result }
{
    let Ok(mut answers) = no_answers(alloc, endpoints.len()) else {
        return Err(FlowError::Memory);
    };
    for (probe, reply) in probes.into_iter().zip(replies) {
        match take_in(&mut answers, endpoints, probe, reply) {
            Err(error) => return Err(error),
            Ok(()) => {}
        }
    }
    Ok(answers)
}

// No answer yet, and so many members, all of them kept.
fn no_answers(alloc: Global, members: usize) -> Result<Answers, Memory>
    ensures { IfOk result (spec.AreNone members) }
{
    let kept = vec![in alloc; true; members]?;
    Ok(Answers {
        probes: Vec::new(alloc),
        truths: Vec::new(alloc),
        kept,
        left: Vec::new(alloc),
    })
}

// One more probe by the reply to it: its answer, or else its member is left out, or it is refused.
fn take_in(
    answers: &mut Answers,
    endpoints: &[Endpoint],
    probe: Probe,
    reply: JobReply,
) -> Result<(), FlowError>
    requires asked { IsForAsk reply }
    requires within { probe.at < length endpoints.now }
    requires marked { length answers.old.kept.items ≡ length endpoints.now }
    ensures { spec.IsTakenIn endpoints.now probe reply answers.old answers.new result }
{
    let at = probe.at;
    match truth_of(at, reply) {
        Ok(truth) => match add_answer(answers, probe, truth) {
            Err(Memory) => Err(FlowError::Memory),
            Ok(()) => Ok(()),
        },
        Err(error) => {
            if !may_leave(endpoints, at) {
                return Err(error);
            }
            match leave_out(answers, at, error) {
                Err(Memory) => Err(FlowError::Memory),
                Ok(()) => Ok(()),
            }
        }
    }
}

// One more probe with its answer.
fn add_answer(answers: &mut Answers, probe: Probe, truth: bool) -> Result<(), Memory>
    ensures { OnOk result (spec.IsAdded probe truth answers.old answers.new) }
{
    answers.probes.push(probe)?;
    answers.truths.push(truth)?;
    Ok(())
}

// Whether the endpoint of this number may be left out.
fn may_leave(endpoints: &[Endpoint], at: u32) -> bool
    requires { at < length endpoints.now }
    ensures { IsMarked result endpoints.now at }
{
    endpoints[at as usize].is_optional()
}

// The member of this number left out for a refusal, unless it is already.
fn leave_out(answers: &mut Answers, at: u32, error: FlowError) -> Result<(), Memory>
    requires { at < length answers.old.kept.items }
    ensures { OnOk result (spec.IsLeftOut at error answers.old answers.new) }
{
    if !answers.kept[at as usize] {
        return Ok(());
    }
    let Some(left) = left_by(error) else {
        return Err(Memory);
    };
    answers.left.push(left)?;
    answers.kept[at as usize] = false;
    Ok(())
}
