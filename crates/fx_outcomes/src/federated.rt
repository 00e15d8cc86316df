//! What a federation gives, or why it gives nothing.
ghost use Rattle.std.specs.Prelude.{◌≡◌, ◌<◌, IfOk, length, string_bytes};
ghost use Rattle.fx_outcomes.specs.Mediation.{HasName, IsNamed, IsPlaced};

use fx_algebra::Answer;
use fx_flows::FlowError;
use fx_outside::Endpoint;
use fx_pool::BadReply;
use fx_services::Down;
use fx_terms::{Iri, Items, Memory};
use std::alloc::Global;
use std::marker::Model;

/// How a query is asked.
#[derive(Clone, Copy)]
pub struct Options {
    /// How many rows one request asks for at most, from 1 to 64.
    pub block: u32,
}

/// What a federation gives.
#[derive(Drop)]
pub struct Outcome {
    /// The answer over the union of the graphs.
    pub answer: Answer,
    /// The occurrences of SERVICE SILENT that failed, by number, each of which gave the one empty solution.
    pub down: Items<Down>,
}

/// The name of an endpoint in a registry. Contracts see its bytes.
#[derive(Drop)]
pub struct MemberName {
    text: String,
}

impl Model for MemberName {
    ghost use Rattle.std.specs.Prelude.{List, ℕ, string_bytes};

    ghost Value = { List ℕ };

    ghost view = { λ n. string_bytes n.text };
}

impl MemberName {
    /// This name. It takes no memory.
    pub fn of(text: String) -> MemberName
        ensures { result ≡ string_bytes text }
    {
        MemberName { text }
    }

    /// The name.
    pub fn as_str(&self) -> &str
        ensures { result.now ≡ self.now }
    {
        self.text.as_str()
    }
}

/// Why a query has no answer or no plan over the endpoints of a registry.
#[derive(Drop)]
pub enum FedError {
    /// An exchange with the endpoint failed, and was counted as a fault at its address.
    Member { name: MemberName },
    /// The exchange for a SERVICE without SILENT failed, the first in text order that has no rows, and was counted as a fault at the address that is its IRI.
    Service { iri: Iri },
    /// A reply of the endpoint is bad.
    BadReply { name: MemberName, bad: BadReply },
    /// A text for the endpoint has more than 67,108,864 bytes, so many, and wasn't sent.
    RequestTooLong { name: MemberName, length: u64 },
    /// A SERVICE without SILENT names no endpoint by this IRI. It is the first such, and nothing was asked.
    UnknownService { iri: Iri },
    /// Memory ran out.
    Memory,
}

/// The refusal, with the name of the endpoint in place of its number.
pub fn named(alloc: Global, endpoints: &[Endpoint], error: FlowError) -> FedError
    requires { IsPlaced (length endpoints.now) error }
    ensures { IsNamed endpoints.now error result }
{
    match error {
        FlowError::Memory => FedError::Memory,
        FlowError::Member { at } => match name_at(alloc, endpoints, at) {
            Ok(name) => FedError::Member { name },
            Err(Memory) => FedError::Memory,
        },
        FlowError::BadReply { at, bad } => match name_at(alloc, endpoints, at) {
            Ok(name) => FedError::BadReply { name, bad },
            Err(Memory) => FedError::Memory,
        },
        FlowError::RequestTooLong { at, length } => match name_at(alloc, endpoints, at) {
            Ok(name) => FedError::RequestTooLong { name, length },
            Err(Memory) => FedError::Memory,
        },
    }
}

/// The name of the endpoint of this number.
pub fn name_at(alloc: Global, endpoints: &[Endpoint], at: u32) -> Result<MemberName, Memory>
    requires { at < length endpoints.now }
    ensures { IfOk result (HasName endpoints.now at) }
{
    let name = endpoints[at as usize].name();
    match String::from_str(alloc, name) {
        Ok(text) => Ok(MemberName::of(text)),
        Err(_) => Err(Memory),
    }
}
