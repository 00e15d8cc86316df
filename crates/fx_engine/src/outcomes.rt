//! The answer of a query by its plan, with its occurrences of SERVICE.
ghost use Rattle.std.specs.Prelude.{◌≡◌, ◌<◌, ◌≤◌, ◌∷◌, [], IfOk, None, length};
ghost use Rattle.fx_grammar.specs.Accepted.{IsSpellable};
ghost use Rattle.fx_outcomes.specs.Outcomes as spec;
ghost use Rattle.fx_outcomes.specs.Outcomes.{IsAllOf, IsPlanOf};
ghost use Rattle.fx_outcomes.specs.Mediation.{IsPlaced};
ghost use Rattle.fx_outcomes.specs.RoundEnds.{IsEndFor, IsFirstOf, IsWhether};
ghost use Rattle.fx_services.specs.Noted.{places};
ghost use Rattle.fx_engine.specs.Questions.{CanBePut, EndedBehindAll, EndedBy, OutcomedBehindStop};
ghost use Rattle.fx_walks.specs.Unknown.{unknown_of};
ghost use Rattle.fx_traffic.specs.Gains.{seen};

use crate::answers::answer_with;
use crate::questions::Question;
use crate::rows::RowsError;
use fx_algebra::Solution;
use fx_flows::FlowError;
use fx_outcomes::invocations::invoke_all;
use fx_outcomes::{Ended, FedError, Left, Outcome, Round, left_by, name_at, named};
use fx_outside::Endpoint;
use fx_plan::Part;
use fx_services::{DoesJobs, Down, ServiceError, Settled};
use fx_side_by_side::DoesFlows;
use fx_terms::{Items, Memory};
use fx_wire::Wire;
use std::alloc::Global;

/// The outcome of a query over the union of the endpoints' graphs, by the parts of its plan, in text order.
///
/// All occurrences of SERVICE are invoked first, side by side. Then the runs are asked for, in text order, up to the first occurrence without SILENT that has no rows, if there
/// is one: a refusal of a run before it comes first, and then its own. A member that is marked as optional is left out for its refusal, and this round is abandoned;
/// behind an occurrence that has no rows the refusal is this one's then.
pub(crate) fn outcome_by_plan<H: DoesJobs<W> + DoesFlows<W>, W: Wire>(
    hands: &H,
    alloc: Global,
    question: &Question<'_>,
    plan: Vec<Part>,
    wires: &mut [W],
) -> Result<Ended, FedError>
    requires hands { H.does hands.now × H.flows hands.now }
    requires wired { (0 < length wires.old) × (length wires.old ≤ 16) }
    requires spellable { IsSpellable question.now.query.now }
    requires known { unknown_of question.now.registry.now question.now.query.now ≡ None }
    requires laid_out { IsPlanOf question.now.query.now plan.items }
    requires asked { CanBePut question.now plan.items }
    ensures { EndedBy (seen W.Wire wires.old wires.new) question.now plan.items result }
{
    match invoke_all(hands, alloc, question.query, question.registry, wires) {
        Err(Memory) => Err(FedError::Memory),
        Ok(
            Settled {
                rows,
                down,
                refused,
            },
        ) => match refused {
            None => answer_all(hands, alloc, question, plan, rows, down, wires),
            Some(error) => Err(refuse(hands, alloc, question, plan, rows, error, wires)),
        },
    }
}

// How the round ends where each occurrence of SERVICE passed.
fn answer_all<H: DoesFlows<W>, W: Wire>(
    hands: &H,
    alloc: Global,
    question: &Question<'_>,
    plan: Vec<Part>,
    rows: Vec<Items<Solution>>,
    down: Vec<Down>,
    wires: &mut [W],
) -> Result<Ended, FedError>
    requires hands { H.flows hands.now }
    requires wired { (0 < length wires.old) × (length wires.old ≤ 16) }
    requires spellable { IsSpellable question.now.query.now }
    requires laid_out { IsPlanOf question.now.query.now plan.items }
    requires asked { CanBePut question.now plan.items }
    requires all { IsAllOf question.now.query.now rows.items }
    ensures { EndedBehindAll (seen W.Wire wires.old wires.new) question.now plan.items down.items rows.items result }
{
    match answer_with(hands, alloc, question, plan, rows, wires) {
        Ok(answer) => Ok(Ended::Answered(Outcome {
            answer,
            down: Items::from_vec(down),
        })),
        Err(RowsError::Flow(error)) => end_for(alloc, question, down.as_slice(), error),
        Err(RowsError::Refused) => unreachable!(),
    }
}

// How it ends where a batch was refused.
fn end_for(
    alloc: Global,
    question: &Question<'_>,
    down: &[Down],
    error: FlowError,
) -> Result<Ended, FedError>
    requires { IsPlaced (length question.now.registry.now) error }
    ensures { IsEndFor question.now.registry.now down.now error result }
{
    let endpoints = question.registry.endpoints();
    if !leaves_out(endpoints, &error) {
        return Err(named(alloc, endpoints, error));
    }
    match left_by(error) {
        None => Err(FedError::Memory),
        Some(left) => match abandoned(alloc, left, down) {
            Err(Memory) => Err(FedError::Memory),
            Ok(round) => Ok(Ended::Abandoned(round)),
        },
    }
}

// Whether the member that a refusal names is left out for it.
fn leaves_out(endpoints: &[Endpoint], error: &FlowError) -> bool
    requires { IsPlaced (length endpoints.now) error.now }
    ensures { IsWhether endpoints.now error.now result }
{
    match error {
        FlowError::Member { at } => endpoints[*at as usize].is_optional(),
        FlowError::BadReply { at, bad: _ } => endpoints[*at as usize].is_optional(),
        FlowError::RequestTooLong { at, length: _ } => endpoints[*at as usize].is_optional(),
        FlowError::Memory => false,
    }
}

// The round that is abandoned for this member, in which these occurrences were down.
fn abandoned(alloc: Global, left: Left, down: &[Down]) -> Result<Round, Memory>
    ensures { IfOk result (λ r. (r.left ≡ left ∷ []) × (r.down ≡ places down.now)) }
{
    let mut one = Items::new(alloc);
    one.push(left)?;
    Ok(Round {
        left: one,
        down: Items::from_vec(numbers_of(alloc, down)?),
    })
}

// The numbers of occurrences.
fn numbers_of(alloc: Global, down: &[Down]) -> Result<Vec<u64>, Memory>
    ensures { IfOk result (λ numbers. numbers.items ≡ places down.now) }
{
    let mut numbers = Vec::new(alloc);
    for occurrence in down {
        numbers.push(occurrence.place)?;
    }
    Ok(numbers)
}

// The refusal where an occurrence of SERVICE without SILENT has no rows, for this reason: that of a run before it, or else its own.
fn refuse<H: DoesFlows<W>, W: Wire>(
    hands: &H,
    alloc: Global,
    question: &Question<'_>,
    plan: Vec<Part>,
    rows: Vec<Items<Solution>>,
    error: ServiceError,
    wires: &mut [W],
) -> FedError
    requires hands { H.flows hands.now }
    requires wired { (0 < length wires.old) × (length wires.old ≤ 16) }
    requires spellable { IsSpellable question.now.query.now }
    requires asked { CanBePut question.now plan.items }
    requires placed { spec.IsPlacedAt (length question.now.registry.now) error }
    ensures { OutcomedBehindStop (seen W.Wire wires.old wires.new) question.now plan.items rows.items error result }
{
    match answer_with(hands, alloc, question, plan, rows, wires) {
        Err(RowsError::Flow(first)) => first_refusal(alloc, question, first, error),
        Err(RowsError::Refused) => told(alloc, question.registry.endpoints(), error),
        Ok(_) => told(alloc, question.registry.endpoints(), error),
    }
}

// The refusal of the run, unless its member may be left out; then that of the occurrence.
fn first_refusal(
    alloc: Global,
    question: &Question<'_>,
    first: FlowError,
    error: ServiceError,
) -> FedError
    requires named { IsPlaced (length question.now.registry.now) first }
    requires placed { spec.IsPlacedAt (length question.now.registry.now) error }
    ensures { IsFirstOf question.now.registry.now first error result }
{
    let endpoints = question.registry.endpoints();
    if leaves_out(endpoints, &first) {
        told(alloc, endpoints, error)
    } else {
        named(alloc, endpoints, first)
    }
}

// The refusal of an occurrence of SERVICE without SILENT, with the name or the address of the endpoint in place of its number.
fn told(alloc: Global, endpoints: &[Endpoint], error: ServiceError) -> FedError
    requires { spec.IsPlacedAt (length endpoints.now) error }
    ensures { spec.IsTold endpoints.now error result }
{
    match error {
        ServiceError::Failed { at } => match endpoints[at as usize].iri().copy() {
            Ok(iri) => FedError::Service { iri },
            Err(_) => FedError::Memory,
        },
        ServiceError::Bad { at, bad } => match name_at(alloc, endpoints, at) {
            Ok(name) => FedError::BadReply { name, bad },
            Err(Memory) => FedError::Memory,
        },
        ServiceError::TooLong { at, length } => match name_at(alloc, endpoints, at) {
            Ok(name) => FedError::RequestTooLong { name, length },
            Err(Memory) => FedError::Memory,
        },
        ServiceError::Unknown => unreachable!(),
    }
}
