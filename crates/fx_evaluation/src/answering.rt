//! The answer of a query over a graph.
ghost use Rattle.std.specs.Prelude.{◌≡◌, ℕ, List, [], ◌∷◌, IfErr, IfOk, IfSome, IsPermutation, None};
ghost use Rattle.fx_terms.specs.declared.triples.Triple.{Triple as TripleTree};
ghost use Rattle.fx_algebra.specs.Answers.{answer as answer_of, has_rows, with_inline as with_inline_of};
ghost use Rattle.fx_algebra.specs.BasicGraphPatterns.{bgp};
ghost use Rattle.fx_algebra.specs.Operators.{merges};
ghost use Rattle.fx_algebra.specs.declared.answers.Answer.TheVariants.{Truth};
ghost use Rattle.fx_algebra.specs.declared.queries.Element.TheVariants.{Triple};
ghost use Rattle.fx_evaluation.specs.FirstHere.{first_here as first_here_of, IsCause};
ghost use Rattle.fx_evaluation.specs.GroupRows.{AsksFor, IsAnswerOf};
ghost use Rattle.fx_store.specs.Stores.{alone};

use crate::first_rows::row_of_group;
use crate::groups::group_rows;
use crate::places::first_here;
use fx_algebra::{Answer, Element, Form, Inline, Query, Solution};
use fx_solutions::known_rows::known_to_rise;
use fx_solutions::laws::one_answer;
use fx_solutions::{answer_of_rows, inline_rows, join_with};
use fx_store::Store;
use fx_terms::{Memory, Pattern};
use std::alloc::Global;

/// Why a query has no answer over a graph.
#[derive(Clone, Copy, Debug, PartialEq, Eq)]
pub enum MemberError {
    /// The query has an occurrence of SERVICE that would have to be asked. This is the number of the first.
    ServiceHere { place: u64 },
    /// Memory ran out.
    Memory,
}

impl From<Memory> for MemberError {
    ghost use Rattle.std.specs.Prelude.{◌≡◌};
    ghost use Rattle.fx_evaluation.specs.declared.answering.MemberError.TheVariants.{Memory};

    ghost from_gives = { λ _ e. e ≡ Memory };

    fn from(_error: Memory) -> MemberError {
        MemberError::Memory
    }
}

/// The answer of a query over a store's graph (SPARQL 1.1 section 18.5), where the occurrences of SERVICE whose numbers are in `down` are
/// down: none is asked, and each gives the one empty solution.
///
/// `ServiceHere` comes exactly where the number of some occurrence isn't in `down`, and names the first. `Memory` comes where
/// memory runs out.
pub fn answer(
    alloc: Global,
    store: &Store,
    query: &Query,
    down: &[u64],
) -> Result<Answer, MemberError>
    ensures answer { IfOk result (λ answer. (graphs : List ℕ → List TripleTree) → answer ≡ answer_of query.now store.now graphs down.now) }
    ensures whole { IfOk result (λ _. first_here_of query.now down.now ≡ None) }
    ensures cause { IfErr result (IsCause query.now down.now) }
{
    if let Some(place) = first_here(alloc, query, down)? {
        return Err(MemberError::ServiceHere { place });
    }
    let answer = answer_here(alloc, store, query)?;
    Ok(answer)
}

// The answer of a query over a graph, where all that it would ask are down.
fn answer_here(alloc: Global, store: &Store, query: &Query) -> Result<Answer, Memory>
    ensures { IfOk result (IsAnswerOf query.now store.now) }
{
    if let Some(pattern) = pattern_asked(query) {
        return Ok(Answer::Truth(has_solution(alloc, store, pattern)));
    }
    match first_row_asked(alloc, store, query)? {
        Some(truth) => Ok(Answer::Truth(truth)),
        None => answer_by_rows(alloc, store, query),
    }
}

// The answer of a query that asks whether triple patterns give a row on which filters hold, found without all of the rows; nothing of any other.
fn first_row_asked(alloc: Global, store: &Store, query: &Query) -> Result<Option<bool>, Memory>
    ensures { IfOk result (λ found. IfSome found (λ truth. IsAnswerOf query.now store.now (Truth truth))) }
{
    match &query.form {
        Form::Select {
            distinct: _,
            columns: _,
        } => Ok(None),
        Form::Ask => match &query.inline {
            Some(_) => Ok(None),
            None => {
                let found = row_of_group(alloc, store, &query.group)?;
                Ok(found)
            }
        },
    }
}

// The pattern of a query that asks for one pattern and nothing else.
fn pattern_asked(query: &Query) -> Option<&Pattern>
    ensures { IfSome result (λ pattern. AsksFor query.now pattern.now) }
{
    match &query.form {
        Form::Select {
            distinct: _,
            columns: _,
        } => None,
        Form::Ask => match &query.inline {
            Some(_) => None,
            None => only_pattern(query.group.elements.as_slice()),
        },
    }
}

// The pattern that elements are, where they are one pattern.
fn only_pattern(elements: &[Element]) -> Option<&Pattern>
    ensures { IfSome result (λ pattern. elements.now ≡ Triple pattern.now ∷ []) }
{
    match elements {
        [Element::Triple(pattern)] => Some(pattern),
        _ => None,
    }
}

// Whether a pattern has a solution. It looks no further than the first.
fn has_solution(alloc: Global, store: &Store, pattern: &Pattern) -> bool
    ensures { result ≡ has_rows (merges (bgp store.now (alone pattern.now)) []) }
{
    let row = Solution::empty(alloc);
    store.some_fits(pattern, &row)
}

// The answer of a query from the rows of its group, where all that it would ask are down.
fn answer_by_rows(alloc: Global, store: &Store, query: &Query) -> Result<Answer, Memory>
    ensures { IfOk result (IsAnswerOf query.now store.now) }
{
    // The rows come in some order, and the answer doesn't depend on it.
    one_answer();
    let found = group_rows(alloc, store, &query.group)?;
    let rows = with_inline(alloc, &query.inline, found)?;
    known_to_rise(rows.as_slice());
    let answer = answer_of_rows(alloc, query, rows.as_slice())?;
    Ok(answer)
}

// The rows joined with the VALUES behind the query, where there is one.
fn with_inline(
    alloc: Global,
    inline: &Option<Inline>,
    rows: Vec<Solution>,
) -> Result<Vec<Solution>, Memory>
    ensures { IfOk result (λ all. IsPermutation (with_inline_of inline.now rows.items) all.items) }
{
    match inline {
        None => Ok(rows),
        Some(inline) => join_with(alloc, rows.as_slice(), inline_rows(alloc, inline)?),
    }
}
