//! The rows of an answer.
ghost use Rattle.std.specs.Prelude.{◌≡◌, drop, IfOk};
ghost use Rattle.fx_algebra.specs.Sequences.{distinct_rows as distinct_of};
ghost use Rattle.fx_algebra.specs.Answers.{selected};
ghost use Rattle.fx_solutions.specs.Ranks as spec;

use crate::distinct_rows::distinct;
use crate::ranked_rows::{Ranked, project_ranked, ranked_in_order};
use fx_algebra::{Query, Solution};
use fx_terms::{Memory, Name};
use std::alloc::Global;

/// The rows of a SELECT (SPARQL 1.1 section 18.2.5) from those of its group, for its columns: in the order of the query's keys and
/// then of the columns, projected, each once at its first place where `is_distinct`, without the OFFSET rows in front, and LIMIT
/// rows at most.
pub fn sequence(
    alloc: Global,
    query: &Query,
    is_distinct: bool,
    columns: &[Name],
    rows: &[Solution],
) -> Result<Vec<Solution>, Memory>
    ensures { IfOk result (λ v. v.items ≡ selected query.now is_distinct columns.now rows.now) }
{
    let ranked = ranked_in_order(alloc, query.order.as_slice(), columns, rows)?;
    let ranked = once(alloc, is_distinct, columns, ranked)?;
    let kept = limited(query.limit, behind(query.offset, ranked.as_slice()));
    project_ranked(alloc, columns, kept)
}

fn once<'a>(
    alloc: Global,
    is_distinct: bool,
    columns: &[Name],
    ranked: Vec<Ranked<'a>>,
) -> Result<Vec<Ranked<'a>>, Memory>
    ensures { IfOk result (λ v. spec.whole_rows v.items ≡ distinct_of is_distinct columns.now (spec.whole_rows ranked.entry.items)) }
{
    if is_distinct {
        distinct(alloc, columns, ranked)
    } else {
        Ok(ranked)
    }
}

// The rows behind some in front.
fn behind<'s, 'a>(offset: u64, ranked: &'s [Ranked<'a>]) -> &'s [Ranked<'a>]
    ensures { result.now ≡ drop offset ranked.now }
{
    let offset = ranked.len().min(offset as usize);
    &ranked[offset..]
}

fn limited<'s, 'a>(limit: Option<u64>, ranked: &'s [Ranked<'a>]) -> &'s [Ranked<'a>]
    ensures { result.now ≡ spec.front limit ranked.now }
{
    match limit {
        Some(limit) => &ranked[..ranked.len().min(limit as usize)],
        None => ranked,
    }
}
