//! Laws of refusals: what the refusal of a query that was asked in rounds rests on, at the endpoint that it names.
//!
//! Nothing here is called: each function is a law of the definitions in `fx_outcomes` and `fx_rounds`, which is its contract.
#![tactic(auto)]

ghost use Rattle.fx_laws_refusals.specs.Refusals.{BadRepliesAreOwn, LongRequestsAreOwn, RefusalsNameNoOptional};

/// Where a refusal names an endpoint it can't be left out: the registry doesn't mark it as optional, or an occurrence of SERVICE of the query
/// without SILENT has its address as its IRI. A member that is named as failed isn't marked.
pub fn refusals_name_no_optional()
    ensures { RefusalsNameNoOptional }
{}

/// A bad reply that a refusal tells is one of the call's own: an exchange with the endpoint that the refusal names has this very request and reply, it asks for something
/// of the query, and what is told is the first fault of the reply for that. Where the graph of the address is told, the fault is that the reply is too long.
pub fn bad_replies_are_own()
    ensures { BadRepliesAreOwn }
{}

/// A text that a refusal tells as too long is one of the call's own: so long is the ASK of a key of the query, the text of one of the batches that its runs send,
/// or that of an occurrence of SERVICE without SILENT, for the endpoint that the refusal names.
pub fn long_requests_are_own()
    ensures { LongRequestsAreOwn }
{}
