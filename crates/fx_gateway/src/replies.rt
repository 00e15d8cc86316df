//! The replies to what the members of a federation give.
ghost use Rattle.std.specs.Prelude.{◌≡◌, IfOk, Ok, Err, Some};
ghost use Rattle.fx_member.specs.Served.{IsLaidOut, Told};
ghost use Rattle.fx_gateway.specs.Replies.{IsReplyTo, fault_told, unasked_with};

use crate::connections::{Gated, GatedReply};
use fx_member::serving::{Reply, with_answer, with_name};
use fx_outcomes::{FedError, Outcome, OutcomeInRounds};
use fx_terms::{Items, Memory};
use std::alloc::Global;

/// The reply to a request that is refused: nothing is known beside it.
pub fn unasked_reply(alloc: Global, reply: Reply) -> GatedReply
    ensures gated { result.gated ≡ unasked_with reply.status }
    ensures bytes { result.bytes.items ≡ reply.bytes.items }
{
    GatedReply {
        gated: Gated {
            status: reply.status,
            fault: None,
            down: Items::new(alloc),
            abandoned: Items::new(alloc),
        },
        bytes: reply.bytes,
    }
}

/// The reply to what the members gave for a query.
pub fn federated_reply(
    alloc: Global,
    given: Result<OutcomeInRounds, FedError>,
) -> Result<GatedReply, Memory>
    ensures { IfOk result (λ reply. IsReplyTo given reply.gated reply.bytes.items) }
{
    match given {
        Ok(all) => answer_reply(alloc, all),
        Err(error) => fault_reply(alloc, error),
    }
}

// The document of the answer.
fn answer_reply(alloc: Global, all: OutcomeInRounds) -> Result<GatedReply, Memory>
    ensures { IfOk result (λ reply. IsReplyTo (Ok all) reply.gated reply.bytes.items) }
{
    let reply = with_answer(alloc, &all.outcome.answer)?;
    let OutcomeInRounds { outcome, abandoned } = all;
    let Outcome { answer: _, down } = outcome;
    Ok(GatedReply {
        gated: Gated {
            status: reply.status,
            fault: None,
            down,
            abandoned,
        },
        bytes: reply.bytes,
    })
}

// The fault.
fn fault_reply(alloc: Global, error: FedError) -> Result<GatedReply, Memory>
    ensures { IfOk result (λ reply. IsReplyTo (Err error) reply.gated reply.bytes.items) }
{
    let reply = named_reply(alloc, &error)?;
    Ok(GatedReply {
        gated: Gated {
            status: reply.status,
            fault: Some(error),
            down: Items::new(alloc),
            abandoned: Items::new(alloc),
        },
        bytes: reply.bytes,
    })
}

// The name of the fault, on a line.
fn named_reply(alloc: Global, error: &FedError) -> Result<Reply, Memory>
    ensures { IfOk result (λ reply. (t : Told) × (fault_told error.now ≡ Some t) × IsLaidOut t reply.status reply.bytes.items) }
{
    match error {
        FedError::Member { name: _ } => with_name(alloc, 502, "Member"),
        FedError::Service { iri: _ } => with_name(alloc, 502, "Service"),
        FedError::BadReply { name: _, bad: _ } => with_name(alloc, 502, "BadReply"),
        FedError::RequestTooLong { name: _, length: _ } => {
            with_name(alloc, 502, "RequestTooLong")
        }
        FedError::UnknownService { iri: _ } => with_name(alloc, 400, "UnknownService"),
        FedError::Memory => Err(Memory),
    }
}
