//! Why bytes are no results document.

use fx_terms::Memory;
use std::alloc::{AllocError, AllocFailed};

/// Why bytes give no answer. Where several causes stand together, the first is told in this order: `BadJson`, `Root`, `Head`;
/// where `boolean` is there, then `Truth` alone; else `Columns`, `Results`, `Bindings`, and then the rows one by one. Of a row
/// `Row` comes first, and then the terms by name, each with its `Blank` or `BadTerm`.
#[derive(Clone, Copy, Debug, PartialEq, Eq)]
pub enum ResultsError {
    /// The bytes are no JSON text.
    BadJson,
    /// The JSON has not the shape of a results document.
    Shape { what: ShapeFault },
    /// A term is an object of type `bnode`.
    Blank,
    /// A term is neither an object of type `bnode`, nor an IRI, nor a literal.
    ///
    /// An IRI is an object of type `uri`, whose `value` is an absolute IRI. A literal is an object of type `literal` or
    /// `typed-literal`, whose `value` is a text, whose `datatype`, if it is there, is an absolute IRI, and whose `xml:lang`, if
    /// it is there, is a language tag. A `typed-literal` has a `datatype`, and `xml:lang` stands alone or beside rdf:langString,
    /// which has it.
    BadTerm,
    /// Memory ran out.
    Memory,
}

/// Which part has not the shape of a results document.
#[derive(Clone, Copy, Debug, PartialEq, Eq)]
pub enum ShapeFault {
    /// The whole is no object, or has both `boolean` and `results`.
    Root,
    /// `head` is no object.
    Head,
    /// `vars` of `head` is no array of distinct variable names.
    Columns,
    /// `results` is no object.
    Results,
    /// `bindings` of `results` is no array.
    Bindings,
    /// A row is no object, or has a name that is no column.
    Row,
    /// `boolean` is neither true nor false.
    Truth,
}

impl From<AllocError> for ResultsError {
    ghost use Rattle.std.specs.Prelude.{◌≡◌};
    ghost use Rattle.fx_results.specs.declared.faults.ResultsError.TheVariants.{Memory as NoMemory};

    ghost from_gives = { λ _ e. e ≡ NoMemory };

    fn from(_error: AllocError) -> ResultsError {
        ResultsError::Memory
    }
}

impl From<Memory> for ResultsError {
    ghost use Rattle.std.specs.Prelude.{◌≡◌};
    ghost use Rattle.fx_results.specs.declared.faults.ResultsError.TheVariants.{Memory as NoMemory};

    ghost from_gives = { λ _ e. e ≡ NoMemory };

    fn from(_error: Memory) -> ResultsError {
        ResultsError::Memory
    }
}

impl<T: Drop> From<AllocFailed<T>> for ResultsError {
    ghost use Rattle.std.specs.Prelude.{◌≡◌};
    ghost use Rattle.fx_results.specs.declared.faults.ResultsError.TheVariants.{Memory as NoMemory};

    ghost from_gives = { λ _ e. e ≡ NoMemory };

    fn from(_error: AllocFailed<T>) -> ResultsError {
        ResultsError::Memory
    }
}
