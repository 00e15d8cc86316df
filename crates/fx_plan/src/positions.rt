//! The units of a run by position.
ghost use Rattle.std.specs.Prelude.{◌≡◌, ◌<◌, ◌++◌, ◌∷◌, [], IfOk, None, OnOk, length, position};
ghost use Rattle.std.specs.List.{zip};
ghost use Rattle.fx_plan.specs.Plans as spec;
ghost use Rattle.fx_plan.specs.Places.{Knows, joined, placed, placed_in_group};

use fx_algebra::Unit;
use fx_terms::{Items, Memory, Pattern};
use indexmap::IndexMap;
use std::alloc::Global;

/// The units of patterns, each at the place of its first pattern.
pub(crate) fn by_position(
    alloc: Global,
    run: &[Pattern],
    sources: &[Items<u32>],
) -> Result<Vec<Unit>, Memory>
    requires { length run.now ≡ length sources.now }
    ensures { IfOk result (λ units. units.items ≡ spec.by_position (zip run.now sources.now)) }
{
    let mut units = Vec::new(alloc);
    let mut groups = IndexMap::new(alloc);
    for i in 0..run.len() {
        place(
            alloc,
            &mut units,
            &mut groups,
            &run[i],
            sources[i].as_slice(),
        )?;
    }
    Ok(units)
}

// One more pattern. For each member that has a group, `groups` says where the group stands.
fn place(
    alloc: Global,
    units: &mut Vec<Unit>,
    groups: &mut IndexMap<u32, usize>,
    pattern: &Pattern,
    sources: &[u32],
) -> Result<(), Memory>
    requires { Knows groups.old units.old.items }
    ensures units { OnOk result (units.new.items ≡ placed units.old.items (pattern.now, sources.now)) }
    ensures groups { OnOk result (Knows groups.new units.new.items) }
{
    match sources {
        [member] => place_in_group(alloc, units, groups, pattern, *member),
        _ => {
            units.push(single(alloc, pattern, sources)?)?;
            Ok(())
        }
    }
}

fn place_in_group(
    alloc: Global,
    units: &mut Vec<Unit>,
    groups: &mut IndexMap<u32, usize>,
    pattern: &Pattern,
    member: u32,
) -> Result<(), Memory>
    requires { Knows groups.old units.old.items }
    ensures units { OnOk result (units.new.items ≡ placed_in_group units.old.items pattern.now member) }
    ensures groups { OnOk result (Knows groups.new units.new.items) }
{
    match groups.get(&member).copied() {
        Some(at) => join(units, at, pattern),
        None => begin(alloc, units, groups, pattern, member),
    }
}

fn join(units: &mut Vec<Unit>, at: usize, pattern: &Pattern) -> Result<(), Memory>
    requires { at < length units.old.items }
    ensures { OnOk result (units.new.items ≡ joined units.old.items at pattern.now) }
{
    units[at].patterns.push(pattern.copy()?)?;
    Ok(())
}

fn begin(
    alloc: Global,
    units: &mut Vec<Unit>,
    groups: &mut IndexMap<u32, usize>,
    pattern: &Pattern,
    member: u32,
) -> Result<(), Memory>
    requires knows { Knows groups.old units.old.items }
    requires new { position (spec.is_group_of member) units.old.items ≡ None }
    ensures units { OnOk result (units.new.items ≡ units.old.items ++ spec.group_of member (pattern.now ∷ []) ∷ []) }
    ensures groups { OnOk result (Knows groups.new units.new.items) }
{
    groups.insert(member, units.len())?;
    units.push(group(alloc, pattern, member)?)?;
    Ok(())
}

fn group(alloc: Global, pattern: &Pattern, member: u32) -> Result<Unit, Memory>
    ensures { IfOk result (λ unit. unit ≡ spec.group_of member (pattern.now ∷ [])) }
{
    let mut patterns = Items::new(alloc);
    patterns.push(pattern.copy()?)?;
    let mut members = Items::new(alloc);
    members.push(member)?;
    Ok(Unit {
        patterns,
        filters: Items::new(alloc),
        members,
        group: true,
    })
}

fn single(alloc: Global, pattern: &Pattern, sources: &[u32]) -> Result<Unit, Memory>
    ensures { IfOk result (λ unit. unit ≡ spec.single_of pattern.now sources.now) }
{
    let mut patterns = Items::new(alloc);
    patterns.push(pattern.copy()?)?;
    Ok(Unit {
        patterns,
        filters: Items::new(alloc),
        members: Items::from_slice(alloc, sources)?,
        group: false,
    })
}
