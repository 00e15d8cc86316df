//! Bound joins: several rows asked for in one VALUES block.
//!
//! A batch is the text that asks for rows of a unit (`values_text`): the rows stand in a block, each with its number, and the unit stands behind
//! it once. The answer of a member is read row by row (`read_values`), and what it tells of a row is what was found for the branch of that
//! number (`Located::into_found`). The laws on which this rests are contracts of functions that do nothing.
#![tactic(auto)]

ghost use Rattle.fx_values.specs.Examples.{RowsAreRead, TextsAreWritten};
ghost use Rattle.fx_values.specs.Reading.{AnswerIsTheStep, AnswerTellsRows};
ghost use Rattle.fx_values.specs.Texts.{ValuesHaveTheWords, ValuesIsAccepted};
ghost use Rattle.fx_values.specs.Values.{ColumnsAreNames, ValuesHaveTheRows};

mod asked;
pub mod batches;
mod columns;
pub mod faults;
mod filters;
pub mod located;
mod names;
pub mod reading;
mod tellings;
mod texts;

pub use batches::{ValuesBatch, values_text};
pub use faults::ValuesError;
use fx_terms::shareable;
pub use located::Located;
pub use reading::read_values;

/// Every type of this crate may be shared between threads and sent to them.
pub fn all_shareable() {
    shareable::<ValuesBatch>();
    shareable::<Located>();
    shareable::<ValuesError>();
}

/// The columns of a block are the names of variables.
pub fn columns_are_names()
    ensures { ColumnsAreNames }
{}

/// The query of a block is printed in these words: the block's columns and rows, and the unit's triples and filters under other names.
pub fn values_have_the_words()
    ensures { ValuesHaveTheWords }
{}

/// The texts of four blocks are what is written out in `specs/Examples.antt`, and a block without a row has none.
pub fn texts_are_written()
    ensures { TextsAreWritten }
{}

/// Eight rows of answers tell what is written out in `specs/Examples.antt`, or have the fault that stands there.
pub fn rows_are_read()
    ensures { RowsAreRead }
{}

/// The printed query of a block of at most 64 rows is accepted as that query.
pub fn values_is_accepted()
    ensures { ValuesIsAccepted }
{}

/// The answer of a block's query over a graph is a table of what each row of the block merges to with the unit's solutions, in some order.
pub fn values_have_the_rows()
    ensures { ValuesHaveTheRows }
{}

/// The rows of an answer, in any order, to a block of at most 64 rows are read without a fault, and tell exactly what the graph has for
/// each of them.
pub fn answer_tells_rows()
    ensures { AnswerTellsRows }
{}

/// Each under the number that its row came with, what is read of the rows of an answer over a graph, in any order, is what the unit makes
/// of the rows over that graph.
pub fn answer_is_the_step()
    ensures { AnswerIsTheStep }
{}
