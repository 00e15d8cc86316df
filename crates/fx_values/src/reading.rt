//! The answer to a batch, read.
ghost use Rattle.std.specs.Prelude.{◌≡◌, ◌&&◌, [], All, Contains, IfOk, List, MatchResult, Ok, Err, filter, pos};
ghost use Rattle.std.specs.Fmt.{decimal};
ghost use Rattle.std.specs.Option.{option_copied};
ghost use Rattle.std.specs.Str.{bytes_eq};
ghost use Rattle.fx_terms.specs.Datatypes.{xsd_integer};
ghost use Rattle.fx_terms.specs.declared.triples.Triple.{Triple as TripleParts};
ghost use Rattle.fx_algebra.specs.Scopes.{is_among};
ghost use Rattle.fx_algebra.specs.Solutions.{same_term};
ghost use Rattle.fx_algebra.specs.Values.{integer};
ghost use Rattle.fx_values.specs.Answers as spec;
ghost use Rattle.fx_values.specs.Parts.{columns_of};
ghost use Rattle.fx_values.specs.Reading as reading;
ghost use Rattle.fx_values.specs.Sent as block;

use crate::batches::ValuesBatch;
use crate::columns::Columns;
use crate::faults::{RowFault, ValuesError};
use crate::located::Located;
use crate::tellings::with_told;
use fx_algebra::{Answer, Row, Solution};
use fx_terms::datatypes::XSD_INTEGER;
use fx_terms::{Items, Literal, Memory, Name, Term};
use itoa::Buffer;
use std::alloc::Global;

/// What the rows of an answer to a batch tell, in their order: the number of the row that each is of, and that row with the terms under the
/// unit's own names.
///
/// `NotTable` comes exactly where the answer is a truth value. Otherwise the first row that has a fault is named: `Foreign` where it
/// binds a name that is no column of the block, else `Partial` where it leaves a column unbound, else `Mixed` where `k` isn't the number of
/// a row that was sent, or a `vj` differs from that row's own term.
pub fn read_values(
    alloc: Global,
    batch: &ValuesBatch,
    answer: &Answer,
) -> Result<Items<Located>, ValuesError>
    ensures exact { spec.AnswersValues result (spec.read_answer batch.now answer.now) }
    ensures tells { (graph : List TripleParts) → spec.IsAnswered graph batch.now answer.now → spec.Tells graph batch.now result }
    ensures rows { IfOk result (λ all. All (λ l. Contains (spec.numbers batch.now) l.row) all) }
{
    let _rows = batch.rows();
    match answer {
        Answer::Truth(_) => Err(ValuesError::NotTable),
        Answer::Table { columns: _, rows } => read_rows(alloc, batch, rows.as_slice()),
    }
}

fn read_rows(
    alloc: Global,
    batch: &ValuesBatch,
    rows: &[Solution],
) -> Result<Items<Located>, ValuesError>
    ensures { spec.AnswersValues result (spec.read_rows (reading.read_row batch.now.unit batch.now.places) 0 rows.now) }
{
    let mut all = Items::new(alloc);
    for (number, row) in rows.iter().enumerate() {
        all.push(read_row(alloc, batch, number, row)?)?;
    }
    Ok(all)
}

fn read_row(
    alloc: Global,
    batch: &ValuesBatch,
    number: usize,
    row: &Solution,
) -> Result<Located, ValuesError>
    ensures { spec.AnswersValues result (spec.numbered number (reading.read_row batch.now.unit batch.now.places row.now)) }
{
    match row_of(batch, row) {
        Ok(sent) => Ok(located(alloc, batch, sent, row)?),
        Err(RowFault::Foreign) => Err(ValuesError::Foreign { row: number as u64 }),
        Err(RowFault::Partial) => Err(ValuesError::Partial { row: number as u64 }),
        Err(RowFault::Mixed) => Err(ValuesError::Mixed { row: number as u64 }),
    }
}

// The row of the block that a row is of, or what is wrong with the row.
fn row_of<'b>(batch: &'b ValuesBatch, row: &Solution) -> Result<&'b (u32, Row), RowFault>
    ensures { MatchResult result
        (λ r. reading.read_row batch.now.unit batch.now.places row.now ≡ Ok (block.located (columns_of batch.now.unit) row.now r.now))
        (λ e. reading.read_row batch.now.unit batch.now.places row.now ≡ Err e) }
{
    let columns = batch.columns();
    let rows = batch.rows();
    row_among(columns, rows, row)
}

fn row_among<'b>(
    columns: &Columns,
    rows: &'b [(u32, Row)],
    row: &Solution,
) -> Result<&'b (u32, Row), RowFault>
    ensures { MatchResult result (λ r. block.row_of columns.now rows.now row.now ≡ Ok r.now) (λ e. block.row_of columns.now rows.now row.now ≡ Err e) }
{
    if is_foreign(columns, row.pairs()) {
        return Err(RowFault::Foreign);
    }
    if is_partial(columns, row) {
        return Err(RowFault::Partial);
    }
    first_of(columns, rows, row)
}

fn is_foreign(columns: &Columns, pairs: &[(Name, Term)]) -> bool
    ensures { result ≡ block.is_foreign columns.now pairs.now }
{
    for pair in pairs {
        if !is_column(columns, &pair.0) {
            return true;
        }
    }
    false
}

fn is_column(columns: &Columns, name: &Name) -> bool
    ensures { result ≡ is_among (block.all columns.now) name.now }
{
    columns.number == *name || is_sent(columns.sent.as_slice(), name)
}

fn is_sent(pairs: &[(Name, Name)], name: &Name) -> bool
    ensures { result ≡ is_among (block.others pairs.now) name.now }
{
    for pair in pairs {
        if pair.0 == *name {
            return true;
        }
    }
    false
}

fn is_partial(columns: &Columns, row: &Solution) -> bool
    ensures { result ≡ block.is_partial columns.now row.now }
{
    row.get(&columns.number).is_none() || lacks_one(columns.sent.as_slice(), row)
}

fn lacks_one(pairs: &[(Name, Name)], row: &Solution) -> bool
    ensures { result ≡ block.lacks_one pairs.now row.now }
{
    for pair in pairs {
        if row.get(&pair.0).is_none() {
            return true;
        }
    }
    false
}

// The first row of the block that a row is of.
fn first_of<'b>(
    columns: &Columns,
    rows: &'b [(u32, Row)],
    row: &Solution,
) -> Result<&'b (u32, Row), RowFault>
    ensures { MatchResult result
        (λ r. block.first_of (filter (block.is_of columns.now row.now) rows.now) ≡ Ok r.now)
        (λ e. block.first_of (filter (block.is_of columns.now row.now) rows.now) ≡ Err e) }
{
    for sent in rows {
        if is_of(columns, row, sent) {
            return Ok(sent);
        }
    }
    Err(RowFault::Mixed)
}

fn is_of(columns: &Columns, row: &Solution, sent: &(u32, Row)) -> bool
    ensures { result ≡ block.is_of columns.now row.now sent.now }
{
    is_number(row.get(&columns.number), sent.0)
        && has_own(columns.sent.as_slice(), &sent.1.solution, row)
}

// Whether what is bound is a number in plain decimal.
fn is_number(bound: Option<&Term>, number: u32) -> bool
    ensures { result ≡ reading.is_that (integer (pos number)) (option_copied bound.entry) }
{
    match bound {
        None => false,
        Some(term) => is_that_number(term, number),
    }
}

fn is_that_number(term: &Term, number: u32) -> bool
    ensures { result ≡ same_term (integer (pos number)) term.now }
{
    match term {
        Term::Iri(_) => false,
        Term::Literal(literal) => has_form(literal, number) && is_integer(literal),
    }
}

fn has_form(literal: &Literal, number: u32) -> bool
    ensures { result ≡ bytes_eq literal.now.form (decimal number) }
{
    let mut buffer = Buffer::new();
    literal.form() == buffer.format(number)
}

fn is_integer(literal: &Literal) -> bool
    ensures { result ≡ (bytes_eq literal.now.datatype xsd_integer && bytes_eq literal.now.tag []) }
{
    literal.datatype().text() == XSD_INTEGER && literal.tag() == ""
}

// Whether the terms under the other names are those of a row, where it has them.
fn has_own(pairs: &[(Name, Name)], own: &Solution, row: &Solution) -> bool
    ensures { result ≡ block.has_own pairs.now own.now row.now }
{
    for pair in pairs {
        if !is_own(own.get(&pair.1), row.get(&pair.0)) {
            return false;
        }
    }
    true
}

fn is_own(own: Option<&Term>, bound: Option<&Term>) -> bool
    ensures { result ≡ reading.is_own (option_copied own.entry) (option_copied bound.entry) }
{
    match own {
        None => true,
        Some(own) => is_that(own, bound),
    }
}

fn is_that(own: &Term, bound: Option<&Term>) -> bool
    ensures { result ≡ reading.is_that own.now (option_copied bound.entry) }
{
    match bound {
        None => false,
        Some(term) => *own == *term,
    }
}

fn located(
    alloc: Global,
    batch: &ValuesBatch,
    sent: &(u32, Row),
    row: &Solution,
) -> Result<Located, Memory>
    ensures { IfOk result (λ l. l ≡ block.located (columns_of batch.now.unit) row.now sent.now) }
{
    let columns = batch.columns();
    Ok(Located {
        row: sent.0,
        solution: with_told(alloc, columns.sent.as_slice(), &sent.1.solution, row)?,
    })
}
