//! What a query is answered by.
ghost use Rattle.std.specs.Prelude.{◌<◌, ◌≤◌};

use fx_algebra::Query;
use fx_sources::Registry;

/// A query, and what it is asked over.
#[derive(Drop)]
pub(crate) struct Question<'a> {
    pub(crate) query: &'a Query,
    pub(crate) registry: &'a Registry,
    /// How many rows one request asks for at most.
    pub(crate) block: u32,
    ghost block_fits: { (0 < block) × (block ≤ 64) },
}
