//! The members of a unit, asked for batches over several wires side by side.
ghost use Rattle.std.specs.Prelude.{◌≡◌, ◌+◌, ◌-◌, ◌<◌, ◌≤◌, ◌++◌, All, List, length, map, true};
ghost use Rattle.std.specs.Thread.{IsSync};
ghost use Rattle.fx_outside.specs.Endpoints.{is_sendable};
ghost use Rattle.fx_spelling.specs.Units.{IsFit};
ghost use Rattle.fx_algebra.specs.declared.units.Row.{Row as RowParts};
ghost use Rattle.fx_flows.specs.Flows.{lists_in, rows_in};
ghost use Rattle.fx_flows.specs.Forms.{CanAsk};
ghost use Rattle.fx_flows.specs.Teams.{AreListsOfBoth, BatchAskedOver, MembersAskedOver, StepAskedOver};
ghost use Rattle.fx_traffic.specs.Gains.{seen};

use crate::flowing::both;
use crate::flows::{FlowError, is_none, united};
use crate::forms::{AsksMembers, Forms};
use fx_algebra::{Row, Unit};
use fx_bound::Found;
use fx_outside::Endpoint;
use fx_terms::{Items, Memory};
use fx_wire::Wire;
use std::alloc::Global;
use std::sync::Wait;
use std::thread::{Threads, join_mut};

/// The rows of a step: what the members of a unit have for each of its batches, in rounds of so many teams that it waits least.
pub(crate) fn ask_rounds<R: Threads + Wait + Sync, W: Wire + Send>(
    rt: &R,
    alloc: &Global,
    endpoints: &[Endpoint],
    unit: &Unit,
    batches: &[Items<Row>],
    wires: &mut [W],
) -> Result<Vec<Row>, FlowError>
    requires wired { 0 < length wires.old }
    requires sendable { All (λ e. is_sendable e ≡ true) endpoints.now }
    requires fit { IsFit unit.now }
    requires few { All (λ rows. length rows ≤ 64) batches.now }
    requires within { All (λ at. at < length endpoints.now) unit.now.members }
    ensures { StepAskedOver (seen W.Wire wires.old wires.new)
        endpoints.now unit.now batches.now (rows_in result) }
{
    let teams = teams_for(batches.len(), unit.members.len(), wires.len());
    let mut made = Vec::new(*alloc);
    let mut left = batches;
    while !is_none(left) {
        let (some, others) = batches_apart(left, teams.min(left.len()));
        match ask_step(rt, alloc, endpoints, unit, some, wires) {
            Err(error) => return Err(error),
            Ok(rows) => {
                let mut rows = rows;
                if made.append(&mut rows).is_err() {
                    return Err(FlowError::Memory);
                }
            }
        }
        left = others;
    }
    Ok(made)
}

/// Whether a step waits less in rounds of teams than by workers with one wire each, who ask the members of a batch in turn: by more than an eighth, since the
/// next round begins only when all of one have ended.
pub(crate) fn waits_less_in_rounds(batches: usize, members: usize, wires: usize) -> bool
    requires { 0 < wires }
{
    let teams = teams_for(batches, members, wires);
    let by_rounds = waits_of(batches, members, wires, teams);
    let by_workers = waits_of(batches, members, wires, wires);
    by_rounds.saturating_mul(8) < by_workers.saturating_mul(7)
}

// How many teams of wires wait least for so many batches, each for so many members: the fewest of those that wait equally long.
fn teams_for(batches: usize, members: usize, wires: usize) -> usize
    requires { 0 < wires }
    ensures { (0 < result) × (result ≤ wires) }
{
    let mut best = 1;
    let mut least = usize::MAX;
    for teams in 1..wires.saturating_add(1) {
        let waits = waits_of(batches, members, wires, teams);
        if waits < least {
            least = waits;
            best = teams;
        }
    }
    best
}

// How many requests follow one another where so many teams share the wires: a round for so many batches, and in it a request for each wire of a team.
fn waits_of(batches: usize, members: usize, wires: usize, teams: usize) -> usize
    requires { 0 < teams }
{
    parts_of(batches, teams).saturating_mul(parts_of(members, wires / teams))
}

// In how many parts of a size something is cut.
fn parts_of(whole: usize, size: usize) -> usize {
    if size == 0 {
        return whole;
    }
    let parts = whole / size;
    if whole % size == 0 {
        parts
    } else {
        parts.saturating_add(1)
    }
}

/// The rows of a step: what the members of a unit have for each of its batches. Each batch has a team of wires of its own: with half of the batches in a
/// thread of its own, and so on down to one.
pub(crate) fn ask_step<R: Threads + Wait + Sync, W: Wire + Send>(
    rt: &R,
    alloc: &Global,
    endpoints: &[Endpoint],
    unit: &Unit,
    batches: &[Items<Row>],
    wires: &mut [W],
) -> Result<Vec<Row>, FlowError>
    requires wired { (0 < length batches.now) × (length batches.now ≤ length wires.old) }
    requires sendable { All (λ e. is_sendable e ≡ true) endpoints.now }
    requires fit { IsFit unit.now }
    requires few { All (λ rows. length rows ≤ 64) batches.now }
    requires within { All (λ at. at < length endpoints.now) unit.now.members }
    ensures { StepAskedOver (seen W.Wire wires.old wires.new)
        endpoints.now unit.now batches.now (rows_in result) }
{
    if batches.len() < 2 {
        return ask_batch_over(rt, alloc, endpoints, unit, batches[0].as_slice(), wires);
    }
    let count = batches.len() - batches.len() / 2;
    let used = team_of(wires.len(), batches.len(), count);
    let (first, others) = batches_apart(batches, count);
    let (left, right) = wires.split_at_mut(used);
    let (ours, theirs) = join_mut(
        rt,
        &mut || -> Result<Vec<Row>, FlowError>
            requires sync { IsSync R.row }
            requires wired { (0 < length first.now) × (length first.now ≤ length left.now) }
            requires sendable { All (λ e. is_sendable e ≡ true) endpoints.now }
            requires fit { IsFit unit.now }
            requires few { All (λ rows. length rows ≤ 64) first.now }
            requires within { All (λ at. at < length endpoints.now) unit.now.members }
            ensures { StepAskedOver (seen W.Wire left.entry.now left.exit.now)
                endpoints.entry.now unit.entry.now first.entry.now (rows_in result) }
        { ask_step(rt, alloc, endpoints, unit, first, left) },
        &mut || -> Result<Vec<Row>, FlowError>
            requires sync { IsSync R.row }
            requires wired { (0 < length others.now) × (length others.now ≤ length right.now) }
            requires sendable { All (λ e. is_sendable e ≡ true) endpoints.now }
            requires fit { IsFit unit.now }
            requires few { All (λ rows. length rows ≤ 64) others.now }
            requires within { All (λ at. at < length endpoints.now) unit.now.members }
            ensures { StepAskedOver (seen W.Wire right.entry.now right.exit.now)
                endpoints.entry.now unit.entry.now others.entry.now (rows_in result) }
        { ask_step(rt, alloc, endpoints, unit, others, right) },
    );
    both(ours, theirs)
}

// How many wires so many of the batches get: as many for each as the others, and one for each at least.
fn team_of(wires: usize, batches: usize, count: usize) -> usize
    requires { (0 < count) × (count < batches) × (batches ≤ wires) }
    ensures { (count ≤ result) × (result ≤ wires) × (batches - count ≤ wires - result) }
{
    (wires / batches)
        .saturating_mul(count)
        .max(count)
        .min(wires - (batches - count))
}

// The first of these batches, and the others.
fn batches_apart(batches: &[Items<Row>], count: usize) -> (&[Items<Row>], &[Items<Row>])
    requires count { count ≤ length batches.now }
    requires few { All (λ rows. length rows ≤ 64) batches.now }
    ensures whole { batches.now ≡ result.0.now ++ result.1.now }
    ensures lengths { (length result.0.now ≡ count) × (length result.1.now ≡ length batches.now - count) }
    ensures first { All (λ (rows : List RowParts). length rows ≤ 64) result.0.now }
    ensures others { All (λ (rows : List RowParts). length rows ≤ 64) result.1.now }
{
    batches.split_at(count)
}

/// What the members of a unit have for rows, united: each wire asks its share of them.
pub(crate) fn ask_batch_over<R: Threads + Wait + Sync, W: Wire + Send>(
    rt: &R,
    alloc: &Global,
    endpoints: &[Endpoint],
    unit: &Unit,
    rows: &[Row],
    wires: &mut [W],
) -> Result<Vec<Row>, FlowError>
    requires wired { 0 < length wires.old }
    requires sendable { All (λ e. is_sendable e ≡ true) endpoints.now }
    requires fit { IsFit unit.now }
    requires few { length rows.now ≤ 64 }
    requires within { All (λ at. at < length endpoints.now) unit.now.members }
    ensures { BatchAskedOver (seen W.Wire wires.old wires.new)
        endpoints.now (record { unit = unit.now; rows = rows.now }) (rows_in result) }
{
    match Forms::of(*alloc, endpoints, unit, rows) {
        Err(Memory) => Err(FlowError::Memory),
        Ok(forms) => ask_for_over(rt, alloc, endpoints, &forms, unit.members.as_slice(), wires),
    }
}

// What the members of a batch's unit have for it, united.
fn ask_for_over<R: Threads + Wait + Sync, W: Wire + Send>(
    rt: &R,
    alloc: &Global,
    endpoints: &[Endpoint],
    forms: &Forms<'_>,
    members: &[u32],
    wires: &mut [W],
) -> Result<Vec<Row>, FlowError>
    requires wired { 0 < length wires.old }
    requires sendable { All (λ e. is_sendable e ≡ true) endpoints.now }
    requires within { All (CanAsk endpoints.now forms.now) members.now }
    requires all { members.now ≡ forms.now.parts.unit.members }
    ensures { BatchAskedOver (seen W.Wire wires.old wires.new) endpoints.now forms.now.parts (rows_in result) }
{
    match ask_over(rt, alloc, endpoints, forms, members, wires) {
        Err(error) => Err(error),
        Ok(lists) => united(*alloc, forms, lists.as_slice()),
    }
}

/// What members have for a batch, in their order: with half of the wires in a thread of its own, and so on down to one wire or one member. Each wire asks
/// its members one after another, and ends with the first that has a fault.
pub(crate) fn ask_over<R: Threads + Wait + Sync, W: Wire + Send, F: AsksMembers + Sync>(
    rt: &R,
    alloc: &Global,
    endpoints: &[Endpoint],
    forms: &F,
    members: &[u32],
    wires: &mut [W],
) -> Result<Vec<Items<Found>>, FlowError>
    requires wired { 0 < length wires.old }
    requires sendable { All (λ e. is_sendable e ≡ true) endpoints.now }
    requires within { All (CanAsk endpoints.now (F.formed forms.now)) members.now }
    ensures { MembersAskedOver (seen W.Wire wires.old wires.new)
        endpoints.now (F.formed forms.now).parts members.now (lists_in result) }
{
    if wires.len() < 2 || members.len() < 2 {
        return forms.ask_members(*alloc, &mut wires[0], endpoints, members);
    }
    let used = wires.len() - wires.len() / 2;
    let at = share_of(members.len(), wires.len(), used);
    let (here, there) = parted(members, at, endpoints, forms);
    let (left, right) = wires.split_at_mut(used);
    let (ours, theirs) = join_mut(
        rt,
        &mut || -> Result<Vec<Items<Found>>, FlowError>
            requires sync { IsSync R.row × IsSync F.row }
            requires wired { 0 < length left.now }
            requires sendable { All (λ e. is_sendable e ≡ true) endpoints.now }
            requires within { All (CanAsk endpoints.now (F.formed forms.now)) here.now }
            ensures { MembersAskedOver (seen W.Wire left.entry.now left.exit.now)
                endpoints.entry.now (F.formed forms.entry.now).parts here.entry.now (lists_in result) }
        { ask_over(rt, alloc, endpoints, forms, here, left) },
        &mut || -> Result<Vec<Items<Found>>, FlowError>
            requires sync { IsSync R.row × IsSync F.row }
            requires wired { 0 < length right.now }
            requires sendable { All (λ e. is_sendable e ≡ true) endpoints.now }
            requires within { All (CanAsk endpoints.now (F.formed forms.now)) there.now }
            ensures { MembersAskedOver (seen W.Wire right.entry.now right.exit.now)
                endpoints.entry.now (F.formed forms.entry.now).parts there.entry.now (lists_in result) }
        { ask_over(rt, alloc, endpoints, forms, there, right) },
    );
    all_lists(ours, theirs)
}

// The first of these members, and the others.
fn parted<'a, F: AsksMembers>(
    members: &'a [u32],
    at: usize,
    _endpoints: &[Endpoint],
    _forms: &F,
) -> (&'a [u32], &'a [u32])
    requires at { at ≤ length members.now }
    requires within { All (CanAsk _endpoints.now (F.formed _forms.now)) members.now }
    ensures whole { members.now ≡ result.0.now ++ result.1.now }
    ensures first { All (CanAsk _endpoints.now (F.formed _forms.now)) result.0.now }
    ensures others { All (CanAsk _endpoints.now (F.formed _forms.now)) result.1.now }
{
    members.split_at(at)
}

// How many of so many members some of the wires ask: as many for each as the others, rounded up, but not all.
fn share_of(members: usize, wires: usize, used: usize) -> usize
    requires { (2 ≤ members) × (0 < wires) }
    ensures { result ≤ members }
{
    let all = members.saturating_mul(used);
    let whole = all / wires;
    let share = if all % wires == 0 {
        whole
    } else {
        whole.saturating_add(1)
    };
    share.max(1).min(members - 1)
}

// The lists of both halves, or why there are none: the fault of the first before that of the second.
fn all_lists(
    ours: Result<Vec<Items<Found>>, FlowError>,
    theirs: Result<Vec<Items<Found>>, FlowError>,
) -> Result<Vec<Items<Found>>, FlowError>
    ensures { AreListsOfBoth ours theirs result }
{
    let mut ours = ours?;
    let mut theirs = theirs?;
    if ours.append(&mut theirs).is_err() {
        return Err(FlowError::Memory);
    }
    Ok(ours)
}
