//! Jobs for endpoints, and what comes of them.
ghost use Rattle.std.specs.Prelude.{◌≡◌, string_bytes};

use crate::faults::ReplyFault;
use fx_algebra::Solution;
use fx_bound::{Batch, Found};
use fx_terms::{Boxed, Items, Name};
use fx_values::ValuesBatch;
use std::marker::Model;

/// The text of a request. Contracts see its bytes.
#[derive(Drop)]
pub struct RequestText {
    text: String,
}

impl Model for RequestText {
    ghost use Rattle.std.specs.Prelude.{List, ℕ, string_bytes};

    ghost Value = { List ℕ };

    ghost view = { λ t. string_bytes t.text };
}

impl RequestText {
    /// This text. It takes no memory.
    pub fn of(text: String) -> RequestText
        ensures { result ≡ string_bytes text }
    {
        RequestText { text }
    }

    /// The text.
    pub fn as_str(&self) -> &str
        ensures { result.now ≡ self.now }
    {
        self.text.as_str()
    }
}

/// Something to ask an endpoint for, by its number, from 0.
#[derive(Drop)]
pub struct Job {
    pub at: u32,
    pub work: Work,
}

/// What is asked for.
#[derive(Drop)]
pub enum Work {
    /// The truth value of an ASK.
    Ask {
        text: RequestText,
    },
    /// What the rows of a batch are found to join with. A batch without a branch has no text, and isn't one to ask for.
    Batch {
        batch: Boxed<Batch>,
    },
    /// So it is of a batch whose rows stand in one VALUES block. One without a row has no text, and isn't one to ask for.
    Values {
        batch: Boxed<ValuesBatch>,
    },
    /// The rows of a SERVICE that asks for these columns.
    Service {
        text: RequestText,
        columns: Items<Name>,
    },
}

/// Which kind of job a reply answers.
#[derive(Clone, Copy, PartialEq, Eq)]
pub enum JobKind {
    Ask,
    Batch,
    Values,
    Service,
}

/// A reply that is bad, with the request that it answers.
#[derive(Drop)]
pub struct BadReply {
    pub kind: JobKind,
    pub request: Items<u8>,
    pub reply: Items<u8>,
    /// The first fault of the reply.
    pub why: ReplyFault,
}

/// What came of a job.
#[derive(Drop)]
pub enum JobReply {
    /// The truth value of an ASK.
    Truth(bool),
    /// What was found for the branches of a batch, in the order of the rows that tell it.
    Found(Items<Found>),
    /// The rows of a SERVICE, each of which binds columns alone.
    Table(Items<Solution>),
    /// The exchange failed, and was counted as a fault at the endpoint's address.
    Failed,
    /// The reply is bad.
    Bad(BadReply),
    /// The text has more than 67,108,864 bytes, so many, and nothing was sent.
    TooLong { length: u64 },
}

// A job that was done, by its number, with what came of it.
#[derive(Drop)]
pub(crate) struct Done {
    pub(crate) number: u64,
    pub(crate) reply: JobReply,
}

impl Work {
    ghost use Rattle.std.specs.Prelude.{◌≡◌};
    ghost use Rattle.fx_pool.specs.Jobs.{kind_of, text_of};

    /// The text that asks for it.
    pub fn text(&self) -> &str
        ensures { result.now ≡ text_of self.now }
    {
        match self {
            Work::Ask { text } => text.as_str(),
            Work::Batch { batch } => batch.get().text().unwrap_or(""),
            Work::Values { batch } => batch.get().text().unwrap_or(""),
            Work::Service { text, columns: _ } => text.as_str(),
        }
    }

    /// Which kind it is of.
    pub fn kind(&self) -> JobKind
        ensures { result ≡ kind_of self.now }
    {
        match self {
            Work::Ask { text: _ } => JobKind::Ask,
            Work::Batch { batch: _ } => JobKind::Batch,
            Work::Values { batch: _ } => JobKind::Values,
            Work::Service { .. } => JobKind::Service,
        }
    }
}
