//! A law of brackets: how many are open at once in a printed filter.
//!
//! Nothing here is called: the function is a law of the definitions in `fx_algebra`, which is its contract.
#![tactic(auto)]

ghost use Rattle.fx_laws_brackets.specs.Brackets.{FiltersOpenTheirBrackets};

/// What is counted over the tree of a filter's condition is the most brackets that are open at once where its element is printed, word by
/// word.
pub fn filters_open_their_brackets()
    ensures { FiltersOpenTheirBrackets }
{}
