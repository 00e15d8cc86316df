//! The occurrences of SERVICE of a query, each invoked once, side by side (SPARQL 1.1 Federated Query, section 2).
ghost use Rattle.std.specs.Prelude.{◌<◌, ◌≤◌, length};
ghost use Rattle.fx_outcomes.specs.Calls.{occurrences};
ghost use Rattle.fx_outcomes.specs.Invocations.{InvokedOver};
ghost use Rattle.fx_traffic.specs.Gains.{seen};
ghost use Rattle.fx_grammar.specs.Accepted.{IsSpellable};

use crate::gathering::gather_group;
use fx_algebra::Query;
use fx_services::{DoesJobs, Settled, ask_services, settle};
use fx_sources::Registry;
use fx_terms::Memory;
use fx_wire::Wire;
use std::alloc::Global;

/// Invokes each occurrence of SERVICE of a query, whatever becomes of the others: what the query goes on with, in text order.
pub fn invoke_all<H: DoesJobs<W>, W: Wire>(
    hands: &H,
    alloc: Global,
    query: &Query,
    registry: &Registry,
    wires: &mut [W],
) -> Result<Settled, Memory>
    requires hands { H.does hands.now }
    requires wired { (0 < length wires.old) × (length wires.old ≤ 16) }
    requires spellable { IsSpellable query.now }
    ensures { InvokedOver (seen W.Wire wires.old wires.new) registry.now (occurrences query.now) result }
{
    let mut found = Vec::new(alloc);
    match gather_group(&query.group, &mut found) {
        Err(Memory) => Err(Memory),
        Ok(()) => match ask_services(hands, alloc, found.as_slice(), registry, wires) {
            Err(Memory) => Err(Memory),
            Ok(came) => settle(alloc, found.as_slice(), came),
        },
    }
}
