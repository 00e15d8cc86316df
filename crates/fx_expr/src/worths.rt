//! What literals are worth.
ghost use Rattle.std.specs.Prelude.{◌≡◌, ◌||◌, bytes_eq, codes};
ghost use Rattle.fx_terms.specs.Datatypes.{lang_string, xsd_boolean, xsd_string};
ghost use Rattle.fx_algebra.specs.Worths as spec;

use crate::integers::{integer_type, is_good_form, number_in_range};
use fx_algebra::{IntegerType, Kind, Worth};
use fx_terms::datatypes::{LANG_STRING, XSD_BOOLEAN, XSD_STRING};
use fx_terms::{Iri, Literal, Term};

/// The truth of a term (SPARQL 1.1 section 17.2.2, effective boolean value), or `None` exactly at its error.
///
/// A truth value has itself, and false where its form is bad. An integer, of xsd:integer or a type that XML Schema derives from
/// it, is true where it is not zero, false where its form is bad or its number out of its type's range, and the error where its
/// form is good and its number out of the range of an `i64`. A string is true where it is not empty. Any other term is the
/// error, also a literal with a language tag. It takes no memory.
#[tactic(auto, unfolding(fx_algebra::specs::Worths::truth))]
pub fn truth(term: &Term) -> Option<bool>
    ensures { result ≡ spec.truth term.now }
{
    match term {
        Term::Iri(_) => None,
        Term::Literal(literal) => literal_truth(literal),
    }
}

fn literal_truth(literal: &Literal) -> Option<bool>
    ensures { result ≡ spec.truth_by (spec.kind_of literal.now.datatype) literal.now.form }
{
    let form = literal.form();
    match kind_of(literal.datatype()) {
        Kind::Integer(kind) => integer_truth(kind, form),
        Kind::Boolean => Some(read_boolean(form).unwrap_or(false)),
        Kind::Text => Some(!form.is_empty()),
        Kind::Tagged => None,
        Kind::Other => None,
    }
}

fn integer_truth(kind: IntegerType, form: &str) -> Option<bool>
    ensures { result ≡ spec.integer_truth (spec.written_integer kind form.now) }
{
    if !is_good_form(kind, form) {
        return Some(false);
    }
    match number_in_range(form) {
        Some(number) => Some(number != 0),
        None => None,
    }
}

/// What a term is worth.
#[tactic(auto, unfolding(fx_algebra::specs::Worths::worth_of))]
pub(crate) fn worth_of(term: &Term) -> Worth
    ensures { result ≡ spec.worth_of term.now }
{
    match term {
        Term::Iri(_) => Worth::Opaque,
        Term::Literal(literal) => literal_worth(literal),
    }
}

fn literal_worth(literal: &Literal) -> Worth
    ensures { result ≡ spec.worth_by (spec.kind_of literal.now.datatype) literal.now.form }
{
    match kind_of(literal.datatype()) {
        Kind::Integer(kind) => match read_integer(kind, literal.form()) {
            Some(number) => Worth::Integer(number),
            None => Worth::Opaque,
        },
        Kind::Boolean => match read_boolean(literal.form()) {
            Some(truth) => Worth::Boolean(truth),
            None => Worth::Opaque,
        },
        Kind::Text => Worth::Text,
        Kind::Tagged => Worth::Opaque,
        Kind::Other => Worth::Opaque,
    }
}

/// What a datatype says of its literals.
#[tactic(auto, unfolding(fx_algebra::specs::Worths::kind_of))]
pub(crate) fn kind_of(datatype: &Iri) -> Kind
    ensures { result ≡ spec.kind_of datatype.now }
{
    match integer_type(datatype) {
        Some(kind) => Kind::Integer(kind),
        None => other_kind(datatype),
    }
}

// What a datatype says that is none of integers.
fn other_kind(datatype: &Iri) -> Kind
    ensures { result ≡ spec.other_kind datatype.now }
{
    if is_boolean_type(datatype) {
        Kind::Boolean
    } else if is_string_type(datatype) {
        Kind::Text
    } else if is_tagged_type(datatype) {
        Kind::Tagged
    } else {
        Kind::Other
    }
}

fn is_boolean_type(datatype: &Iri) -> bool
    ensures { result ≡ bytes_eq datatype.now xsd_boolean }
{
    datatype.text() == XSD_BOOLEAN
}

fn is_string_type(datatype: &Iri) -> bool
    ensures { result ≡ bytes_eq datatype.now xsd_string }
{
    datatype.text() == XSD_STRING
}

fn is_tagged_type(datatype: &Iri) -> bool
    ensures { result ≡ bytes_eq datatype.now lang_string }
{
    datatype.text() == LANG_STRING
}

// The value of a form of a type of integers.
fn read_integer(kind: IntegerType, form: &str) -> Option<i64>
    ensures { result ≡ spec.read_integer kind form.now }
{
    if is_good_form(kind, form) {
        number_in_range(form)
    } else {
        None
    }
}

// The truth value that a form writes.
#[tactic(auto, unfolding(fx_algebra::specs::Worths::read_boolean))]
fn read_boolean(form: &str) -> Option<bool>
    ensures { result ≡ spec.read_boolean form.now }
{
    if writes_true(form) {
        Some(true)
    } else if writes_false(form) {
        Some(false)
    } else {
        None
    }
}

fn writes_true(form: &str) -> bool
    ensures { result ≡ (bytes_eq form.now (codes "true") || bytes_eq form.now (codes "1")) }
{
    form == "true" || form == "1"
}

fn writes_false(form: &str) -> bool
    ensures { result ≡ (bytes_eq form.now (codes "false") || bytes_eq form.now (codes "0")) }
{
    form == "false" || form == "0"
}
