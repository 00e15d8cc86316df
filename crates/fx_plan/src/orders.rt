//! The order in which units are taken.
ghost use Rattle.std.specs.Prelude.{◌≡◌, ◌<◌, ◌≤◌, ◌+◌, ℕ, IfOk, List, drop, length, map};
ghost use Rattle.fx_algebra.specs.declared.units.Unit as unit;
ghost use Rattle.fx_plan.specs.Plans as spec;
ghost use Rattle.fx_plan.specs.Places.{first_place, is_sooner_waiting, waits, without};

use crate::names::Names;
use fx_algebra::Unit;
use fx_terms::{Memory, Name, Pattern};
use std::alloc::Global;

/// A unit that isn't taken yet, and its variables that aren't known yet.
#[derive(Drop)]
pub(crate) struct Waiting {
    pub unit: Unit,
    pub free: Names,
}

/// The units in the order in which they are taken, where names are known before.
pub(crate) fn in_order(alloc: Global, units: Vec<Unit>, known: &[Name]) -> Result<Vec<Unit>, Memory>
    ensures { IfOk result (λ ordered. ordered.items ≡ spec.in_order known.now units.items) }
{
    let mut names = Names::new(alloc);
    names.add_all(known)?;
    let left = all_waiting(alloc, units, &names)?;
    taken(alloc, left)
}

// The units in the order in which they are taken. Names that a unit binds are forgotten by those that are left.
fn taken(alloc: Global, waiting: Vec<Waiting>) -> Result<Vec<Unit>, Memory>
    ensures { (known : List (List ℕ)) (us : List unit.Unit) → waiting.items ≡ map (waits known) us → IfOk result (λ ordered. ordered.items ≡ spec.in_order known us) }
{
    let mut left = waiting;
    let mut ordered = Vec::new(alloc);
    while !left.is_empty() {
        let Waiting { unit, free } = left.remove(next(left.as_slice()));
        forget(left.as_mut_slice(), &free);
        ordered.push(unit)?;
    }
    Ok(ordered)
}

fn all_waiting(alloc: Global, units: Vec<Unit>, known: &Names) -> Result<Vec<Waiting>, Memory>
    ensures { IfOk result (λ all. all.items ≡ map (waits known.now) units.items) }
{
    let mut all = Vec::new(alloc);
    for unit in units {
        let free = free_names(alloc, known, unit.patterns.as_slice())?;
        all.push(Waiting { unit, free })?;
    }
    Ok(all)
}

pub(crate) fn free_names(
    alloc: Global,
    known: &Names,
    patterns: &[Pattern],
) -> Result<Names, Memory>
    ensures { IfOk result (λ free. free ≡ spec.free_names known.now patterns.now) }
{
    let mut free = Names::new(alloc);
    free.add_patterns(patterns)?;
    free.forget(known);
    Ok(free)
}

fn forget(left: &mut [Waiting], names: &Names)
    ensures { left.new ≡ map (without names.now) left.old }
{
    for one in left {
        one.free.forget(names);
    }
}

// Where the unit stands that is taken next.
fn next(left: &[Waiting]) -> usize
    requires { 0 < length left.now }
    ensures place { result ≡ first_place left.now }
    ensures within { result < length left.now }
{
    let mut at = left.len() - 1;
    let mut best = at;
    while at > 0 {
        at -= 1;
        best = better(left, best, at);
    }
    best
}

// The same for those from a place on, where it is known for those behind that place.
fn better(left: &[Waiting], best: usize, at: usize) -> usize
    requires low { at < best }
    requires within { best < length left.now }
    requires behind { best ≡ at + 1 + first_place (drop (at + 1) left.now) }
    ensures place { result ≡ at + first_place (drop at left.now) }
    ensures low { at ≤ result }
    ensures within { result < length left.now }
{
    if is_sooner(&left[best], &left[at]) {
        best
    } else {
        at
    }
}

fn is_sooner(one: &Waiting, earlier: &Waiting) -> bool
    ensures { result ≡ is_sooner_waiting one.now earlier.now }
{
    one.free.len() < earlier.free.len()
        || (one.free.len() == earlier.free.len() && one.unit.group && !earlier.unit.group)
}
