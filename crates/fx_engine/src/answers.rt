//! The answer of a query by its plan.
ghost use Rattle.std.specs.Prelude.{◌≡◌, ◌<◌, ◌≤◌, IfErr, IfOk, IsPermutation, length};
ghost use Rattle.fx_algebra.specs.Answers.{with_inline as with_inline_of};
ghost use Rattle.fx_walks.specs.AnswersAsked as spec;
ghost use Rattle.fx_engine.specs.Questions.{AnsweredBy, CanBePut};
ghost use Rattle.fx_engine.specs.Walks.{AnswerAsked, CanBeWalked};
ghost use Rattle.fx_traffic.specs.Gains.{seen};

use crate::groups::group_rows;
use crate::questions::Question;
use crate::rows::RowsError;
use crate::walks::Walk;
use fx_algebra::{Answer, Inline, Query, Solution};
use fx_flows::FlowError;
use fx_plan::Part;
use fx_side_by_side::DoesFlows;
use fx_solutions::known_rows::known_to_rise;
use fx_solutions::{answer_of_rows, inline_rows, join_with};
use fx_terms::{Items, Memory};
use fx_walks::tasks::{Tasks, tasks_of};
use fx_wire::Wire;
use std::alloc::Global;

/// The answer of a query over the union of the endpoints' graphs, by the parts of its plan and the rows of its occurrences of SERVICE, both in text
/// order. Where there are fewer of these, the others were refused. The cause of a refusal is that of `answer_by_plan`.
pub(crate) fn answer_with<H: DoesFlows<W>, W: Wire>(
    hands: &H,
    alloc: Global,
    question: &Question<'_>,
    plan: Vec<Part>,
    found: Vec<Items<Solution>>,
    wires: &mut [W],
) -> Result<Answer, RowsError>
    requires hands { H.flows hands.now }
    requires wired { (0 < length wires.old) × (length wires.old ≤ 16) }
    requires asked { CanBePut question.now plan.items }
    ensures { AnsweredBy (seen W.Wire wires.old wires.new) question.now plan.items found.items result }
{
    match tasks_of(alloc, plan, found) {
        Err(Memory) => Err(RowsError::Flow(FlowError::Memory)),
        Ok(tasks) => {
            let tasks = Tasks::of(tasks);
            let walk = Walk {
                alloc,
                endpoints: question.registry.endpoints(),
                tasks: &tasks,
                block: question.block,
            };
            answer_by_plan(hands, &walk, question.query, wires)
        }
    }
}

/// The answer of a query over the union of the endpoints' graphs, by its tasks, in text order. The cause of a refusal is that of a batch of one of the
/// tasks' units, or an occurrence of SERVICE was refused.
pub(crate) fn answer_by_plan<H: DoesFlows<W>, W: Wire>(
    hands: &H,
    walk: &Walk<'_>,
    query: &Query,
    wires: &mut [W],
) -> Result<Answer, RowsError>
    requires hands { H.flows hands.now }
    requires wired { (0 < length wires.old) × (length wires.old ≤ 16) }
    requires asked { CanBeWalked walk.now }
    ensures { AnswerAsked (seen W.Wire wires.old wires.new) walk.now.endpoints.now walk.now.block walk.now.tasks.now query.now result }
{
    let mut next = 0;
    match group_rows(hands, walk, &query.group, &mut next, wires) {
        Err(error) => Err(error),
        Ok(rows) => answer_from(walk.alloc, query, rows),
    }
}

// The answer of a query from the rows of its group.
fn answer_from(alloc: Global, query: &Query, rows: Vec<Solution>) -> Result<Answer, RowsError>
    ensures given { IfOk result (spec.IsFromRows query.now rows.items) }
    ensures memory { IfErr result (λ e. e ≡ RowsError.Flow FlowError.Memory) }
{
    let all = with_inline(alloc, &query.inline, rows)?;
    known_to_rise(all.as_slice());
    Ok(answer_of_rows(alloc, query, all.as_slice())?)
}

// The rows joined with the VALUES behind the query, where there is one.
fn with_inline(
    alloc: Global,
    inline: &Option<Inline>,
    rows: Vec<Solution>,
) -> Result<Vec<Solution>, Memory>
    ensures { IfOk result (λ all. IsPermutation (with_inline_of inline.now rows.items) all.items) }
{
    match inline {
        None => Ok(rows),
        Some(inline) => join_with(alloc, rows.as_slice(), inline_rows(alloc, inline)?),
    }
}
