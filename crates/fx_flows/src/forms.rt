//! A batch of rows of a unit, in the forms in which its members take it.
ghost use Rattle.std.specs.Prelude.{◌≡◌, ◌<◌, ◌≤◌, All, cond, IfOk, IfSome, IsTrue, false, is_some, length, not, option_map, slice_get, true};
ghost use Rattle.std.specs.List.{list_any};
ghost use Rattle.fx_algebra.specs.Solutions.{rises};
ghost use Rattle.fx_outside.specs.Endpoints.{is_sendable};
ghost use Rattle.fx_spelling.specs.Units.{IsFit};
ghost use Rattle.fx_traffic.specs.Batches.{block_of};
ghost use Rattle.fx_pool.specs.Jobs.{kind_by};
ghost use Rattle.fx_pool.specs.Reading.{carried_for};
ghost use Rattle.fx_bound.specs.Parts.{Parts};
ghost use Rattle.fx_flows.specs.Flows.{AskedMembers, lists_in};
ghost use Rattle.fx_flows.specs.Forms.{Formed};
ghost use Rattle.fx_flows.specs.Forms as spec;

use crate::flows::{FlowError, ask_members};
use fx_algebra::{Row, Solution, Unit};
use fx_bound::{Batch, Found, batch_text};
use fx_outside::Endpoint;
use fx_pool::JobKind;
use fx_pool::faults::ReadError;
use fx_pool::reading::{read_found, read_located};
use fx_terms::{Boxed, Items, Memory};
use fx_values::{ValuesBatch, values_text};
use fx_wire::Wire;
use std::alloc::Global;
use std::marker::Model;

/// A batch of rows of a unit: with a branch for each row where a member wants it so, and as one VALUES block where one does. Contracts see the
/// unit and the rows, and which of the two there are.
#[derive(Drop)]
pub(crate) struct Forms<'a> {
    unit: &'a Unit,
    rows: &'a [Row],
    plain: Option<Boxed<Batch>>,
    block: Option<Boxed<ValuesBatch>>,
}

impl<'a> Model for Forms<'a> {
    ghost use Rattle.std.specs.Coded.{codes};
    ghost use Rattle.std.specs.Prelude.{is_some};
    ghost use Rattle.fx_algebra.specs.contracts.expressions.Expr as expr;
    ghost use Rattle.fx_flows.specs.Forms.{AreForms, Formed};

    ghost Value = { Formed };

    ghost coded = { Prim.hlevel (codes, expr.the_row.coded) };

    ghost view = { λ f. record { parts = record { unit = f.unit.now; rows = f.rows.now }; plain = is_some f.plain; values = is_some f.block } };

    ghost invariant = { λ f. AreForms (record { unit = f.unit.now; rows = f.rows.now }) f.plain f.block };
}

impl<'a> Forms<'a> {
    /// Of rows of a unit, for its members: each form that one of their endpoints takes.
    pub(crate) fn of(
        alloc: Global,
        endpoints: &[Endpoint],
        unit: &'a Unit,
        rows: &'a [Row],
    ) -> Result<Forms<'a>, Memory>
        requires fit { IsFit unit.now }
        requires few { length rows.now ≤ 64 }
        requires within { All (λ at. at < length endpoints.now) unit.now.members }
        ensures parts { IfOk result (λ forms. forms.parts ≡ record { unit = unit.now; rows = rows.now }) }
        ensures asked { IfOk result (λ forms. All (spec.CanAsk endpoints.now forms) unit.now.members) }
    {
        known_rows(rows);
        let members = unit.members.as_slice();
        let plain = plain_form(alloc, unit, rows, is_wanted(endpoints, members, false))?;
        let block = block_form(alloc, unit, rows, is_wanted(endpoints, members, true))?;
        Ok(Forms {
            unit,
            rows,
            plain,
            block,
        })
    }

    /// The rows.
    pub(crate) fn rows(&self) -> &[Row]
        ensures rows { result.now ≡ self.now.parts.rows }
        ensures rising { All (λ r. IsTrue (rises r.solution)) self.now.parts.rows }
    {
        self.rows
    }

    /// The text by which an endpoint is asked, or `None` where no row is left.
    pub(crate) fn text(&self, endpoint: &Endpoint) -> Option<&str>
        requires { spec.has_form self.now endpoint.now ≡ true }
        ensures { spec.IsTextIn endpoint.now.values self.now.parts (option_map (λ t. t.now) result) }
    {
        if endpoint.takes_values() {
            match &self.block {
                Some(batch) => block_text(batch.get()),
                None => unreachable!(),
            }
        } else {
            match &self.plain {
                Some(batch) => plain_text(batch.get()),
                None => unreachable!(),
            }
        }
    }

    /// What is found by the reply of an endpoint, or its first fault.
    pub(crate) fn read(
        &self,
        alloc: Global,
        endpoint: &Endpoint,
        reply: &[u8],
    ) -> Result<Items<Found>, ReadError>
        requires { spec.has_form self.now endpoint.now ≡ true }
        ensures { spec.IsReadIn (carried_for endpoint.now self.now.parts) self.now.parts reply.now result }
    {
        if endpoint.takes_values() {
            match &self.block {
                Some(batch) => read_located(alloc, reply, batch.get()),
                None => unreachable!(),
            }
        } else {
            match &self.plain {
                Some(batch) => read_found(alloc, reply, batch.get()),
                None => unreachable!(),
            }
        }
    }
}

/// What members are asked for over several wires. What these share may be shared by threads, which is shown once, where a type becomes one of these.
pub(crate) trait AsksMembers {
    /// A batch, in the forms in which members take it.
    ghost formed: { Self → Formed };

    /// What members have for it, one after another.
    fn ask_members<W: Wire>(
        &self,
        alloc: Global,
        wire: &mut W,
        endpoints: &[Endpoint],
        members: &[u32],
    ) -> Result<Vec<Items<Found>>, FlowError>
        requires sendable { All (λ e. is_sendable e ≡ true) endpoints.now }
        requires within { All (spec.CanAsk endpoints.now (formed self.now)) members.now }
        ensures { AskedMembers W.counts_alone (W.seen wire.old) (W.seen wire.new) endpoints.now (formed self.now).parts members.now (lists_in result) };
}

impl<'a> AsksMembers for Forms<'a> {
    ghost formed = { λ forms. forms };

    fn ask_members<W: Wire>(
        &self,
        alloc: Global,
        wire: &mut W,
        endpoints: &[Endpoint],
        members: &[u32],
    ) -> Result<Vec<Items<Found>>, FlowError> {
        ask_members(alloc, wire, endpoints, self, members)
    }
}

/// The kind of what an endpoint is asked for by a batch.
pub(crate) fn kind_for(endpoint: &Endpoint) -> JobKind
    ensures { (p : Parts) → result ≡ kind_by (carried_for endpoint.now p) }
{
    if endpoint.takes_values() {
        JobKind::Values
    } else {
        JobKind::Batch
    }
}

fn block_text(batch: &ValuesBatch) -> Option<&str>
    ensures { spec.IsBlockText batch.now (option_map (λ t. t.now) result) }
{
    let _rows = batch.rows();
    batch.text()
}

fn plain_text(batch: &Batch) -> Option<&str>
    ensures { spec.IsTextIn false batch.now (option_map (λ t. t.now) result) }
{
    let _branches = batch.branches();
    batch.text()
}

// Whether one of these members takes batches as VALUES, or otherwise.
fn is_wanted(endpoints: &[Endpoint], members: &[u32], values: bool) -> bool
    ensures { result ≡ list_any (λ at. spec.takes_form values (slice_get endpoints.now at)) members.now }
{
    for at in members {
        if takes(endpoints, *at, values) {
            return true;
        }
    }
    false
}

fn takes(endpoints: &[Endpoint], at: u32, values: bool) -> bool
    ensures { result ≡ spec.takes_form values (slice_get endpoints.now at) }
{
    match endpoints.get(at as usize) {
        None => false,
        Some(endpoint) => is_taken(endpoint, values),
    }
}

fn is_taken(endpoint: &Endpoint, values: bool) -> bool
    ensures { result ≡ cond values endpoint.now.values (not endpoint.now.values) }
{
    if values {
        endpoint.takes_values()
    } else {
        !endpoint.takes_values()
    }
}

// The batch with a branch for each row, where it is wanted.
fn plain_form(
    alloc: Global,
    unit: &Unit,
    rows: &[Row],
    wanted: bool,
) -> Result<Option<Boxed<Batch>>, Memory>
    requires fit { IsFit unit.now }
    requires few { length rows.now ≤ 64 }
    ensures wanted { IfOk result (λ form. is_some form ≡ wanted) }
    ensures batch { IfOk result (λ form. IfSome form (λ batch. batch ≡ record { unit = unit.now; rows = rows.now })) }
{
    if !wanted {
        return Ok(None);
    }
    Ok(Some(Boxed::new(alloc, batch_text(alloc, unit, rows)?)?))
}

// The one with a VALUES block, where it is wanted.
fn block_form(
    alloc: Global,
    unit: &Unit,
    rows: &[Row],
    wanted: bool,
) -> Result<Option<Boxed<ValuesBatch>>, Memory>
    requires fit { IsFit unit.now }
    requires few { length rows.now ≤ 64 }
    ensures wanted { IfOk result (λ form. is_some form ≡ wanted) }
    ensures batch { IfOk result (λ form. IfSome form (λ batch. batch ≡ block_of (record { unit = unit.now; rows = rows.now }))) }
{
    if !wanted {
        return Ok(None);
    }
    Ok(Some(Boxed::new(alloc, values_text(alloc, unit, rows)?)?))
}

// That the names of rows rise. It does nothing.
fn known_rows(rows: &[Row])
    ensures { All (λ r. IsTrue (rises r.solution)) rows.now }
{
    for row in rows {
        known_solution(&row.solution);
    }
}

fn known_solution(solution: &Solution)
    ensures { IsTrue (rises solution.now) }
{
    let _pairs = solution.pairs();
}
