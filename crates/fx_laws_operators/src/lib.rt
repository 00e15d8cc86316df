//! Laws of expressions: what each operator and function gives, row by row of the tables of SPARQL 1.1 section 17, in this project's
//! profile.
//!
//! Nothing here is called: each function is a law of the definitions in `fx_algebra`, which is its contract.
#![tactic(auto)]

ghost use Rattle.fx_laws_operators.specs.Functions.{Forms, Functions, Lists};
ghost use Rattle.fx_laws_operators.specs.Literals.{Literals};
ghost use Rattle.fx_laws_operators.specs.Operators.{Arithmetic, Equality, ErrorsStay, Logic, Made, Order};

/// `||`, `&&` and `!` of true, false and the error, and chains of them.
pub fn truths_are_joined()
    ensures { Logic }
{}

/// `=` and `!=` of integers, truth values, strings and any terms.
pub fn equality_is_by_value()
    ensures { Equality }
{}

/// `<`, `<=`, `>` and `>=` of integers, truth values and strings, and the error of all else.
pub fn order_is_by_value()
    ensures { Order }
{}

/// A comparison with a part in error is one.
pub fn errors_stay()
    ensures { ErrorsStay }
{}

/// `+`, `-` and `*` of integers, chains of them, and both signs: the number, or the error where it isn't one of 64 bits; and the error
/// of all else.
pub fn sums_are_in_range()
    ensures { Arithmetic }
{}

/// Truth values and numbers that an operator gives are worth what they are made of.
pub fn values_are_read_back()
    ensures { Made }
{}

/// `IN` and `NOT IN` are chains of `=` and of `!=`.
pub fn lists_are_chains()
    ensures { Lists }
{}

/// Variables, constants, BOUND, IF and COALESCE.
pub fn forms_take_what_they_need()
    ensures { Forms }
{}

/// The functions of terms and texts.
pub fn functions_are_by_their_rows()
    ensures { Functions }
{}

/// What literals are worth, and their truth, by their datatypes and forms.
pub fn literals_have_their_truths()
    ensures { Literals }
{}
