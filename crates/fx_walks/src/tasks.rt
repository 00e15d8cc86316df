//! What is to be done for a query, place by place.
ghost use Rattle.std.specs.Prelude.{◌≡◌, ◌∷◌, IfOk, List, length};
ghost use Rattle.std.specs.Vec.Iter.{into_iter_items};
ghost use Rattle.fx_plan.specs.declared.parts.Part.{Part as PlanPart};
ghost use Rattle.fx_walks.specs.Tasks as spec;

use fx_algebra::{Solution, Unit};
use fx_plan::Part;
use fx_terms::{Items, Memory};
use std::alloc::Global;
use std::marker::Model;
use std::vec::IntoIter;

/// What is to be done for a place of a query that requests are sent for.
#[derive(Drop)]
pub enum Task {
    /// A run of triple patterns, by the units that it is asked for by.
    Run { units: Items<Unit> },
    /// A run in which a pattern has no source: nothing is asked for.
    EmptyRun,
    /// An occurrence of SERVICE with its rows.
    Service { rows: Items<Solution> },
    /// An occurrence of SERVICE that was refused, or that stands behind one that was.
    Refused,
}

/// The tasks of a query, in text order. Contracts see the list of them.
#[derive(Drop)]
pub struct Tasks {
    all: Vec<Task>,
    /// How many stand before the first occurrence of SERVICE that was refused.
    front: usize,
}

impl Model for Tasks {
    ghost use Rattle.std.specs.Coded.{codes};
    ghost use Rattle.std.specs.Prelude.{◌≡◌, List, length};
    ghost use Rattle.fx_algebra.specs.contracts.expressions.Expr as expr;
    ghost use Rattle.fx_walks.specs.Tasks.{front_of};
    ghost use Rattle.fx_walks.specs.declared.tasks.Task.{Task as TaskParts};

    ghost Value = { List TaskParts };

    ghost coded = { Prim.hlevel (codes, expr.the_row.coded) };

    ghost view = { λ t. t.all.items };

    ghost invariant = { λ t. t.front ≡ length (front_of t.all.items) };
}

impl Tasks {
    pub fn of(all: Vec<Task>) -> Tasks
        ensures { result ≡ all.items }
    {
        let front = front_length(all.as_slice());
        Tasks { all, front }
    }

    pub fn len(&self) -> usize
        ensures { result ≡ length self.now }
    {
        self.all.len()
    }

    pub fn all(&self) -> &[Task]
        ensures { result.now ≡ self.now }
    {
        self.all.as_slice()
    }

    /// Those before the first occurrence of SERVICE that was refused. Behind it nothing is asked for.
    #[tactic(auto, using(crate::proofs::FrontLemmas::front_within, crate::proofs::FrontLemmas::front_taken))]
    pub fn front(&self) -> &[Task]
        ensures { result.now ≡ spec.front_of self.now }
    {
        &self.all.as_slice()[..self.front]
    }
}

fn front_length(tasks: &[Task]) -> usize
    ensures { result ≡ length (spec.front_of tasks.now) }
{
    let mut front = 0;
    for task in tasks {
        if is_refused(task) {
            return front;
        }
        front += 1;
    }
    front
}

fn is_refused(task: &Task) -> bool
    ensures { result ≡ spec.is_refused task.now }
{
    match task {
        Task::Run { units: _ } => false,
        Task::EmptyRun => false,
        Task::Service { rows: _ } => false,
        Task::Refused => true,
    }
}

/// The tasks of a plan, in text order, with the rows of its occurrences of SERVICE in text order. Where there are fewer of these, the others were
/// refused.
pub fn tasks_of(
    alloc: Global,
    plan: Vec<Part>,
    found: Vec<Items<Solution>>,
) -> Result<Vec<Task>, Memory>
    ensures { IfOk result (λ tasks. tasks.items ≡ spec.tasks_with plan.items found.items) }
{
    let mut left = found.into_iter();
    let mut tasks = Vec::new(alloc);
    for part in plan {
        let task = task_of(part, &mut left);
        if tasks.push(task).is_err() {
            return Err(Memory);
        }
    }
    Ok(tasks)
}

// The task of a part. An occurrence of SERVICE takes the next rows.
fn task_of(part: Part, left: &mut IntoIter<Items<Solution>>) -> Task
    ensures { (parts : List PlanPart) → spec.tasks_with (part ∷ parts) (into_iter_items left.old)
        ≡ result ∷ spec.tasks_with parts (into_iter_items left.new) }
{
    match part {
        Part::Run { units, bound: _ } => Task::Run { units },
        Part::EmptyRun => Task::EmptyRun,
        Part::Service { iri: _ } => match left.next() {
            Some(rows) => Task::Service { rows },
            None => Task::Refused,
        },
    }
}
