//! Answers.
ghost use Rattle.std.specs.Prelude.{◌≡◌, IfOk};

use crate::queries::copy_names;
use crate::solutions::Solution;
use fx_terms::{Items, Memory, Name};
use std::alloc::Global;

/// The answer of a query.
#[derive(Drop)]
pub enum Answer {
    /// Rows, each of which binds columns alone.
    Table {
        columns: Items<Name>,
        rows: Items<Solution>,
    },
    /// Whether there is a solution.
    Truth(bool),
}

impl Answer {
    /// An equal answer, which shares the texts.
    pub fn copy(&self, alloc: Global) -> Result<Answer, Memory>
        ensures { IfOk result (λ copy. copy ≡ self.now) }
    {
        match self {
            Answer::Table { columns, rows } => Ok(Answer::Table {
                columns: copy_names(alloc, columns.as_slice())?,
                rows: copy_solutions(alloc, rows.as_slice())?,
            }),
            Answer::Truth(truth) => Ok(Answer::Truth(*truth)),
        }
    }
}

fn copy_solutions(alloc: Global, solutions: &[Solution]) -> Result<Items<Solution>, Memory>
    ensures { IfOk result (λ copies. copies ≡ solutions.now) }
{
    let mut copies = Items::new(alloc);
    for solution in solutions {
        copies.push(solution.copy(alloc)?)?;
    }
    Ok(copies)
}
