//! What the rows of a query's groups are asked for by.
ghost use Rattle.std.specs.Prelude.{◌≡◌, ◌<◌, ◌≤◌, All, true};
ghost use Rattle.fx_outside.specs.Endpoints.{is_sendable};

use fx_outside::Endpoint;
use fx_walks::tasks::Tasks;
use std::alloc::Global;

/// What a walk through the groups of a query goes by.
#[derive(Drop)]
pub(crate) struct Walk<'a> {
    pub(crate) alloc: Global,
    /// The endpoints of the registry, by their numbers.
    pub(crate) endpoints: &'a [Endpoint],
    /// The tasks of the query, in text order.
    pub(crate) tasks: &'a Tasks,
    /// How many rows one request asks for at most.
    pub(crate) block: u32,
    ghost sendable: { All (λ e. is_sendable e ≡ true) endpoints.now },
    ghost block_fits: { (0 < block) × (block ≤ 64) },
}
