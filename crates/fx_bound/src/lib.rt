//! Bound joins: several rows asked for in one text.
//!
//! A batch is the text that asks for rows of a unit, each in a branch of its own (`batch_text`). The answer of a member is read row by row
//! (`read_batch`), and what the members told is united (`unite`). The laws on which this rests are contracts of functions that do nothing.
#![tactic(auto)]

ghost use Rattle.fx_bound.specs.Batches.{BatchHasTheRows, BatchIsTheStep};
ghost use Rattle.fx_bound.specs.Examples.{RowsAreRead, TextsAreWritten};
ghost use Rattle.fx_bound.specs.Reading.{AnswerTellsBranches, ColumnsAreNames};
ghost use Rattle.fx_bound.specs.Texts.{BatchHasTheWords, BatchIsAccepted};

pub mod batches;
pub mod branches;
mod columns;
pub mod faults;
mod filters;
mod names;
pub mod reading;
mod tellings;
mod texts;
pub mod uniting;

pub use batches::{Batch, batch_text};
pub use branches::Branch;
pub use faults::BatchError;
pub use fx_founds::Found;
use fx_terms::shareable;
pub use reading::read_batch;
pub use uniting::unite;

/// Every type of this crate may be shared between threads and sent to them.
pub fn all_shareable() {
    shareable::<Batch>();
    shareable::<Branch>();
    shareable::<Found>();
    shareable::<BatchError>();
}

/// Each column of a batch is the name of a variable.
pub fn columns_are_names()
    ensures { ColumnsAreNames }
{}

/// The query of a batch is printed in the words of its branches: the unit's own, with a row's terms and other names in them.
pub fn batch_has_the_words()
    ensures { BatchHasTheWords }
{}

/// The texts of four batches are what is written out in `specs/Examples.antt`.
pub fn texts_are_written()
    ensures { TextsAreWritten }
{}

/// Seven rows of answers tell what is written out in `specs/Examples.antt`, or have the fault that stands there.
pub fn rows_are_read()
    ensures { RowsAreRead }
{}

/// The printed query of a batch of at most 64 rows, of which one at least is worth asking for, is accepted as that query.
pub fn batch_is_accepted()
    ensures { BatchIsAccepted }
{}

/// The answer of a batch's query over a graph is a table of the rows of its branches, in some order.
pub fn batch_has_the_rows()
    ensures { BatchHasTheRows }
{}

/// The rows of an answer, in any order, that are those of the branches of at most 64 rows are read without a fault, and tell exactly
/// what the graph has for each branch.
pub fn answer_tells_branches()
    ensures { AnswerTellsBranches }
{}

/// Where a unit is sound over graphs, the answers of its members to the batch of at most 64 rows, each in any order, are read without a
/// fault and unite to what the unit makes of the rows over the union of the graphs.
pub fn batch_is_the_step()
    ensures { BatchIsTheStep }
{}
