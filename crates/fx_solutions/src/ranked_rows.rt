//! Rows in the order of their keys, as they stand: a row is copied only where it is projected.
ghost use Rattle.std.specs.Prelude.{◌≡◌, All, drop, IfOk, IsTrue, map, None};
ghost use Rattle.fx_algebra.specs.Solutions.{rises};
ghost use Rattle.fx_algebra.specs.OrderedRows.{first_key as first_key_of, in_order, key_cmp, key_of as key_in, keyed_cmp, keys_cmp};
ghost use Rattle.fx_algebra.specs.Keys.{key_order};
ghost use Rattle.fx_solutions.specs.Ranks as spec;

use crate::sequences::compare_rows;
use fx_algebra::{Order, Solution};
use fx_expr::{Key, value};
use fx_terms::{Items, Memory, Name};
use std::alloc::Global;
use std::cmp::Ordering;
use std::marker::Model;

/// A row with its keys, which are computed once. Contracts see the keys beside the whole row.
#[derive(Drop)]
pub(crate) struct Ranked<'a> {
    keys: Items<Key>,
    row: &'a Solution,
}

impl<'a> Model for Ranked<'a> {
    ghost use Rattle.fx_algebra.specs.declared.keys.Keyed.{Keyed};

    ghost Value = { Keyed };

    ghost view = { λ r. record { keys = r.keys; row = r.row.now } };
}

impl<'a> Ranked<'a> {
    pub(crate) fn row(&self) -> &Solution
        ensures { result.now ≡ self.now.row }
    {
        self.row
    }
}

/// The rows in the order of keys, and then of columns.
pub(crate) fn ranked_in_order<'a>(
    alloc: Global,
    orders: &[Order],
    columns: &[Name],
    rows: &'a [Solution],
) -> Result<Vec<Ranked<'a>>, Memory>
    ensures { IfOk result (λ v. spec.projected_rows columns.now v.items ≡ in_order orders.now columns.now rows.now) }
{
    let mut ranked = ranked_rows(alloc, orders, rows)?;
    ranked.sort_by(|left, right| compare_ranked(orders, columns, left, right))?;
    Ok(ranked)
}

fn ranked_rows<'a>(
    alloc: Global,
    orders: &[Order],
    rows: &'a [Solution],
) -> Result<Vec<Ranked<'a>>, Memory>
    ensures ranked { IfOk result (λ v. v.items ≡ map (spec.ranked orders.now) rows.now) }
    ensures rise { IfOk result (λ _. All (λ s. IsTrue (rises s)) rows.now) }
{
    let mut all = Vec::with_capacity(alloc, rows.len())?;
    for row in rows {
        all.push(with_keys(alloc, orders, row)?)?;
    }
    Ok(all)
}

fn with_keys<'a>(alloc: Global, orders: &[Order], row: &'a Solution) -> Result<Ranked<'a>, Memory>
    ensures ranked { IfOk result (λ k. k ≡ spec.ranked orders.now row.now) }
    ensures rises { IsTrue (rises row.now) }
{
    let _pairs = row.pairs();
    let keys = keys_of(alloc, orders, row)?;
    Ok(Ranked { keys, row })
}

fn keys_of(alloc: Global, orders: &[Order], row: &Solution) -> Result<Items<Key>, Memory>
    ensures { IfOk result (λ keys. keys ≡ map (key_in row.now) orders.now) }
{
    let mut keys = Items::new(alloc);
    for order in orders {
        keys.push(key_of(alloc, order, row)?)?;
    }
    Ok(keys)
}

#[tactic(auto, unfolding(fx_algebra::specs::OrderedRows::key_of))]
fn key_of(alloc: Global, order: &Order, row: &Solution) -> Result<Key, Memory>
    ensures { IfOk result (λ key. key ≡ key_in row.now order.now) }
{
    Ok(Key::of(value(alloc, &order.expr, row)?))
}

/// The rows, projected to columns.
pub(crate) fn project_ranked(
    alloc: Global,
    columns: &[Name],
    rows: &[Ranked<'_>],
) -> Result<Vec<Solution>, Memory>
    ensures { IfOk result (λ v. v.items ≡ spec.projected_rows columns.now rows.now) }
{
    let mut parts = Vec::with_capacity(alloc, rows.len())?;
    for one in rows {
        parts.push(one.row().project(alloc, columns)?)?;
    }
    Ok(parts)
}

// By the keys. Where they tie, by the rows.
fn compare_ranked(
    orders: &[Order],
    columns: &[Name],
    left: &Ranked<'_>,
    right: &Ranked<'_>,
) -> Ordering
    ensures { result ≡ keyed_cmp orders.now columns.now left.now right.now }
{
    let keys = compare_all_keys(orders, left.keys.as_slice(), right.keys.as_slice());
    if keys != Ordering::Equal {
        return keys;
    }
    compare_rows(columns, left.row, right.row)
}

fn compare_all_keys(orders: &[Order], left: &[Key], right: &[Key]) -> Ordering
    ensures { result ≡ keys_cmp orders.now left.now right.now }
{
    let mut left = left;
    let mut right = right;
    for order in orders {
        let found = compare_key(order, left, right);
        if found != Ordering::Equal {
            return found;
        }
        left = behind_first(left);
        right = behind_first(right);
    }
    Ordering::Equal
}

// By the first keys, of which a missing one is the error.
fn compare_key(order: &Order, left: &[Key], right: &[Key]) -> Ordering
    ensures { result ≡ key_cmp order.now (first_key_of left.now) (first_key_of right.now) }
{
    let found = compare_first(left, right);
    if order.descending {
        found.reverse()
    } else {
        found
    }
}

fn compare_first(left: &[Key], right: &[Key]) -> Ordering
    ensures { result ≡ key_order (first_key_of left.now) (first_key_of right.now) }
{
    let none = Key::of(None);
    first_key(left, &none).compare(first_key(right, &none))
}

fn first_key<'a>(keys: &'a [Key], none: &'a Key) -> &'a Key
    requires { none.now ≡ None }
    ensures { result.now ≡ first_key_of keys.now }
{
    match keys {
        [] => none,
        [first, ..] => first,
    }
}

fn behind_first(keys: &[Key]) -> &[Key]
    ensures { result.now ≡ drop 1 keys.now }
{
    match keys {
        [] => keys,
        [_, rest @ ..] => rest,
    }
}
