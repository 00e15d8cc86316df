//! The names of faults of replies, as they are printed.
ghost use Rattle.std.specs.Prelude.{◌≡◌};
ghost use Rattle.fx_outcomes.specs.FaultTexts as texts;

use fx_bound::BatchError;
use fx_http::ReplyError;
use fx_pool::ReplyFault;
use fx_results::{ResultsError, ShapeFault};
use fx_values::ValuesError;

/// The name of the fault, which is the innermost one without what it holds. Behind `Shape` stands the part that has not its shape; behind `Status`
/// belongs the code, which `fault_code` tells.
pub fn fault_words(why: ReplyFault) -> &'static str
    ensures { result.now ≡ texts.fault_words why }
{
    match why {
        ReplyFault::Http(error) => http_words(error),
        ReplyFault::Results(error) => results_words(error),
        ReplyFault::Batch(error) => batch_words(error),
        ReplyFault::Values(error) => values_words(error),
        ReplyFault::NotTruth => "NotTruth",
        ReplyFault::NotTable => "NotTable",
        ReplyFault::Foreign { row: _ } => "Foreign",
    }
}

/// The status code, where the reply is bad for it.
pub fn fault_code(why: ReplyFault) -> Option<u16>
    ensures { result ≡ texts.fault_code why }
{
    match why {
        ReplyFault::Http(ReplyError::Status { code }) => Some(code),
        _ => None,
    }
}

fn http_words(error: ReplyError) -> &'static str
    ensures { result.now ≡ texts.http_words error }
{
    match error {
        ReplyError::TooLong => "TooLong",
        ReplyError::Head => "Head",
        ReplyError::Status { code: _ } => "Status",
        ReplyError::Coding => "Coding",
        ReplyError::ContentType => "ContentType",
        ReplyError::Length => "Length",
        ReplyError::Chunk => "Chunk",
        ReplyError::Memory => "Memory",
    }
}

fn results_words(error: ResultsError) -> &'static str
    ensures { result.now ≡ texts.results_words error }
{
    match error {
        ResultsError::BadJson => "BadJson",
        ResultsError::Shape { what } => shape_words(what),
        ResultsError::Blank => "Blank",
        ResultsError::BadTerm => "BadTerm",
        ResultsError::Memory => "Memory",
    }
}

fn shape_words(what: ShapeFault) -> &'static str
    ensures { result.now ≡ texts.shape_words what }
{
    match what {
        ShapeFault::Root => "Shape Root",
        ShapeFault::Head => "Shape Head",
        ShapeFault::Columns => "Shape Columns",
        ShapeFault::Results => "Shape Results",
        ShapeFault::Bindings => "Shape Bindings",
        ShapeFault::Row => "Shape Row",
        ShapeFault::Truth => "Shape Truth",
    }
}

fn batch_words(error: BatchError) -> &'static str
    ensures { result.now ≡ texts.batch_words error }
{
    match error {
        BatchError::NotTable => "NotTable",
        BatchError::Foreign { row: _ } => "Foreign",
        BatchError::Mixed { row: _ } => "Mixed",
        BatchError::Partial { row: _ } => "Partial",
        BatchError::Memory => "Memory",
    }
}

fn values_words(error: ValuesError) -> &'static str
    ensures { result.now ≡ texts.values_words error }
{
    match error {
        ValuesError::NotTable => "NotTable",
        ValuesError::Foreign { row: _ } => "Foreign",
        ValuesError::Partial { row: _ } => "Partial",
        ValuesError::Mixed { row: _ } => "Mixed",
        ValuesError::Memory => "Memory",
    }
}
