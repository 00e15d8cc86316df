//! Laws of the definitions, each the contract of a function that does nothing.
ghost use Rattle.fx_algebra.specs.OrderedRows.{OneOrder};
ghost use Rattle.fx_solutions.specs.Tables.{OneAnswer};

/// The rows of an answer under ORDER BY (SPARQL 1.1 section 15.1, in this project's profile). The same solutions, however they
/// arrived, give one list of rows.
pub fn one_order()
    ensures { OneOrder }
{}

/// The answer of a query (SPARQL 1.1 section 18.2.5, in this project's profile). The same solutions, however they arrived, give one
/// answer.
pub fn one_answer()
    ensures { OneAnswer }
{}
