//! The filters that go with units.
ghost use Rattle.std.specs.Prelude.{◌≡◌, IfOk, filter, not};
ghost use Rattle.fx_algebra.specs.Units.{is_covered, is_pushable};
ghost use Rattle.fx_plan.specs.Conditions.{has_names};
ghost use Rattle.fx_plan.specs.Plans as spec;

use crate::conditions::{has_all, is_pushable};
use crate::names::Names;
use fx_algebra::{Expr, Unit};
use fx_terms::{Items, Memory, Pattern};
use std::alloc::Global;

/// Each unit with the filters that it is the first to hold the variables of, where they may be pushed.
pub(crate) fn pushed(alloc: Global, units: Vec<Unit>, filters: &[Expr]) -> Result<Vec<Unit>, Memory>
    ensures { IfOk result (λ with. with.items ≡ spec.pushed filters.now units.items) }
{
    let pushable = all_pushable(alloc, filters)?;
    shared(alloc, units, pushable)
}

fn all_pushable(alloc: Global, filters: &[Expr]) -> Result<Vec<Expr>, Memory>
    ensures { IfOk result (λ kept. kept.items ≡ filter is_pushable filters.now) }
{
    let mut kept = Vec::new(alloc);
    for filter in filters {
        if is_pushable(alloc, filter) {
            kept.push(filter.copy(alloc)?)?;
        }
    }
    Ok(kept)
}

fn shared(alloc: Global, units: Vec<Unit>, filters: Vec<Expr>) -> Result<Vec<Unit>, Memory>
    ensures { IfOk result (λ with. with.items ≡ spec.shared filters.items units.items) }
{
    let mut left = filters;
    let mut with = Vec::new(alloc);
    for unit in units {
        let (unit, others) = with_its_own(alloc, unit, left)?;
        with.push(unit)?;
        left = others;
    }
    Ok(with)
}

// A unit with those of the filters that it holds the variables of, and the others.
fn with_its_own(alloc: Global, unit: Unit, filters: Vec<Expr>) -> Result<(Unit, Vec<Expr>), Memory>
    ensures own { IfOk result (λ both. both.0 ≡ spec.with_filters unit (filter (is_covered unit.patterns) filters.items)) }
    ensures others { IfOk result (λ both. both.1.items ≡ filter (λ e. not (is_covered unit.patterns e)) filters.items) }
{
    let (own, others) = parted(alloc, unit.patterns.as_slice(), filters)?;
    let Unit {
        patterns,
        filters: _,
        members,
        group,
    } = unit;
    let unit = Unit {
        patterns,
        filters: own,
        members,
        group,
    };
    Ok((unit, others))
}

fn parted(
    alloc: Global,
    patterns: &[Pattern],
    filters: Vec<Expr>,
) -> Result<(Items<Expr>, Vec<Expr>), Memory>
    ensures own { IfOk result (λ both. both.0 ≡ filter (is_covered patterns.now) filters.items) }
    ensures others { IfOk result (λ both. both.1.items ≡ filter (λ e. not (is_covered patterns.now e)) filters.items) }
{
    let mut names = Names::new(alloc);
    names.add_patterns(patterns)?;
    parted_by(alloc, &names, filters)
}

fn parted_by(
    alloc: Global,
    names: &Names,
    filters: Vec<Expr>,
) -> Result<(Items<Expr>, Vec<Expr>), Memory>
    ensures own { IfOk result (λ both. both.0 ≡ filter (has_names names.now) filters.items) }
    ensures others { IfOk result (λ both. both.1.items ≡ filter (λ e. not (has_names names.now e)) filters.items) }
{
    let mut own = Items::new(alloc);
    let mut others = Vec::new(alloc);
    for filter in filters {
        if has_all(names, &filter) {
            own.push(filter)?;
        } else {
            others.push(filter)?;
        }
    }
    Ok((own, others))
}
