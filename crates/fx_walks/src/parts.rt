//! The plan of a query, part by part.
ghost use Rattle.std.specs.Prelude.{◌≡◌, ◌<◌, All, IfOk, length};
ghost use Rattle.std.specs.List.{flat_map, list_any};
ghost use Rattle.fx_algebra.specs.Answers.{is_empty_list};
ghost use Rattle.fx_plan.specs.Explained.{HasMembers};
ghost use Rattle.fx_walks.specs.Sections as spec;
ghost use Rattle.std.specs.Prelude.{ℕ};

use crate::sections::{Section, sections};
use fx_algebra::{Expr, Query};
use fx_plan::{Part, units};
use fx_terms::{Items, Memory, Name, Pattern};
use std::alloc::Global;

/// The parts of a query by the sources of its patterns outside SERVICE, which are given in text order.
pub fn parts(alloc: Global, query: &Query, sources: &[Items<u32>]) -> Result<Vec<Part>, Memory>
    requires { length sources.now ≡ length (flat_map spec.run_patterns (spec.sections query.now)) }
    ensures parts { IfOk result (λ parts. parts.items ≡ spec.parts_by (spec.sections query.now) sources.now) }
    ensures within { (count : ℕ) → All (All (λ at. at < count)) sources.now → IfOk result (λ parts. All (HasMembers count) parts.items) }
{
    let sections = sections(alloc, query)?;
    parts_of(alloc, sections, sources)
}

fn parts_of(
    alloc: Global,
    sections: Vec<Section>,
    sources: &[Items<u32>],
) -> Result<Vec<Part>, Memory>
    requires { length sources.now ≡ length (flat_map spec.run_patterns sections.items) }
    ensures { IfOk result (λ parts. parts.items ≡ spec.parts_by sections.items sources.now) }
{
    let mut parts = Vec::new(alloc);
    let mut left = sources;
    for section in sections {
        match section {
            Section::Run {
                patterns,
                filters,
                bound,
            } => {
                let (own, others) = left.split_at(patterns.as_slice().len());
                left = others;
                parts.push(part_of_run(
                    alloc,
                    patterns.as_slice(),
                    filters.as_slice(),
                    bound,
                    own,
                )?)?;
            }
            Section::Service { iri } => parts.push(Part::Service { iri })?,
        }
    }
    Ok(parts)
}

// The part that a run is, by the sources of its patterns.
fn part_of_run(
    alloc: Global,
    patterns: &[Pattern],
    filters: &[Expr],
    bound: Items<Name>,
    sources: &[Items<u32>],
) -> Result<Part, Memory>
    requires { length patterns.now ≡ length sources.now }
    ensures { IfOk result (λ part. part ≡ spec.part_of_run patterns.now filters.now bound sources.now) }
{
    if lacks_one(sources) {
        return Ok(Part::EmptyRun);
    }
    let units = units(alloc, patterns, sources, filters, bound.as_slice())?;
    Ok(Part::Run {
        units: Items::from_vec(units),
        bound,
    })
}

// Whether one of the lists is empty.
fn lacks_one(sources: &[Items<u32>]) -> bool
    ensures { result ≡ list_any is_empty_list sources.now }
{
    sources.iter().any(|members| members.as_slice().is_empty())
}
