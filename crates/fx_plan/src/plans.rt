//! The plan of a run.
ghost use Rattle.std.specs.Prelude.{◌≡◌, IfOk, length};
ghost use Rattle.fx_plan.specs.Plans.{plan};

use crate::orders::in_order;
use crate::positions::by_position;
use crate::shares::pushed;
use fx_algebra::{Expr, Unit};
use fx_terms::{Items, Memory, Name, Pattern};
use std::alloc::Global;

/// The units of a run of triple patterns, in the order in which they are asked for. For each pattern `sources` has the members
/// that have anything for it, by number; `filters` are those of the run's group, and `bound` the names that are bound before the
/// run.
///
/// Each pattern is to have a source: a run with a pattern that has none gives no row, and is not asked for.
///
/// The patterns whose only source is one and the same member form one unit, a group. Each other pattern is a unit by itself, a
/// single, which asks all its sources. A unit's position is that of its first pattern. A filter goes with the first unit, by
/// position, whose patterns hold all its variables, where it has a variable, doesn't call BOUND, and has at most 60 brackets open
/// at once in its printed element; else it goes with none. Then the units are taken one by one: that with the fewest variables
/// that are neither bound nor in a unit taken before, then a group before a single, then by position.
pub fn units(
    alloc: Global,
    run: &[Pattern],
    sources: &[Items<u32>],
    filters: &[Expr],
    bound: &[Name],
) -> Result<Vec<Unit>, Memory>
    requires { length run.now ≡ length sources.now }
    ensures { IfOk result (λ units. units.items ≡ plan run.now sources.now filters.now bound.now) }
{
    let units = by_position(alloc, run, sources)?;
    let units = pushed(alloc, units, filters)?;
    in_order(alloc, units, bound)
}
