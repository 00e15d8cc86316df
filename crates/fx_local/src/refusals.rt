//! Why a command has no answer.
ghost use Rattle.std.specs.Prelude.{◌≡◌};

use crate::statuses::Status;
use fx_ntriples::NtError;
use fx_sources::RegistryError;
use fx_syntax::SyntaxKind;
use fx_terms::{Iri, Memory};
use fx_turtle::TurtleKind;

/// Why a file gives nothing.
#[derive(Clone, Copy)]
pub enum FileRefusal {
    /// Its reading failed.
    Fault,
    /// It has more bytes than its limit.
    TooLong,
    /// Memory ran out.
    Memory,
}

/// Why the text of a graph's file is no document.
#[derive(Clone, Copy)]
pub enum GraphFault {
    /// It is none of N-Triples.
    Triples(NtError),
    /// It is none of Turtle, for this reason at this byte place.
    Turtle { kind: TurtleKind, place: u64 },
}

/// Why the file of a graph gives no graph.
#[derive(Clone, Copy)]
pub enum GraphRefusal {
    /// Its reading failed.
    Fault,
    /// It has more bytes than its limit.
    TooLong,
    /// It is refused.
    Refused(GraphFault),
    /// Memory ran out.
    Memory,
}

impl GraphRefusal {
    ghost use Rattle.fx_local.specs.RefusalStatuses.{graph_status};

    /// How a run with this refusal ends.
    pub fn status(self) -> Status
        ensures { result ≡ graph_status self }
    {
        match self {
            GraphRefusal::Fault => Status::ReadFault,
            GraphRefusal::TooLong => Status::FileTooLong,
            GraphRefusal::Refused(GraphFault::Triples(NtError::Memory)) => Status::NoMemory,
            GraphRefusal::Refused(_) => Status::GraphRefused,
            GraphRefusal::Memory => Status::NoMemory,
        }
    }
}

/// Why the file of a query gives no query.
#[derive(Clone, Copy)]
pub enum QueryRefusal {
    /// Its reading failed.
    Fault,
    /// It has more bytes than its limit.
    TooLong,
    /// It is refused, for this reason at this byte place.
    Refused { kind: SyntaxKind, place: u64 },
    /// Memory ran out.
    Memory,
}

impl QueryRefusal {
    ghost use Rattle.fx_local.specs.RefusalStatuses.{query_status};

    /// How a run with this refusal ends.
    pub fn status(self) -> Status
        ensures { result ≡ query_status self }
    {
        match self {
            QueryRefusal::Fault => Status::ReadFault,
            QueryRefusal::TooLong => Status::FileTooLong,
            QueryRefusal::Refused { kind: _, place: _ } => Status::QueryRefused,
            QueryRefusal::Memory => Status::NoMemory,
        }
    }
}

/// Why `local` has no answer.
#[derive(Drop)]
pub enum Refusal {
    /// For the file of the graph.
    Graph(GraphRefusal),
    /// For the file of the query.
    Query(QueryRefusal),
    /// For the first SERVICE without SILENT, which names this IRI.
    UnknownService(Iri),
    /// Memory ran out.
    Memory,
}

impl Refusal {
    ghost use Rattle.fx_local.specs.RefusalStatuses.{status_of};

    /// How a run with this refusal ends.
    pub fn status(&self) -> Status
        ensures { result ≡ status_of self.now }
    {
        match self {
            Refusal::Graph(refusal) => refusal.status(),
            Refusal::Query(refusal) => refusal.status(),
            Refusal::UnknownService(_) => Status::UnknownService,
            Refusal::Memory => Status::NoMemory,
        }
    }
}

impl From<Memory> for Refusal {
    ghost use Rattle.std.specs.Prelude.{◌≡◌};
    ghost use Rattle.fx_local.specs.declared.refusals.Refusal.TheVariants.{Memory as NoMemory};

    ghost from_gives = { λ _ e. e ≡ NoMemory };

    fn from(_error: Memory) -> Refusal {
        Refusal::Memory
    }
}

/// Why the file of a registry gives no registry.
#[derive(Clone, Copy)]
pub enum RegistryRefusal {
    /// Its reading failed.
    Fault,
    /// It has more bytes than its limit.
    TooLong,
    /// It is refused.
    Refused(RegistryError),
    /// Memory ran out.
    Memory,
}

impl RegistryRefusal {
    ghost use Rattle.fx_local.specs.RefusalStatuses.{registry_status};

    /// How a run with this refusal ends.
    pub fn status(self) -> Status
        ensures { result ≡ registry_status self }
    {
        match self {
            RegistryRefusal::Fault => Status::ReadFault,
            RegistryRefusal::TooLong => Status::FileTooLong,
            RegistryRefusal::Refused(RegistryError::Memory) => Status::NoMemory,
            RegistryRefusal::Refused(_) => Status::RegistryRefused,
            RegistryRefusal::Memory => Status::NoMemory,
        }
    }
}
