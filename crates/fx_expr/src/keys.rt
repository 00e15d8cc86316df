//! The order of values under ORDER BY.
ghost use Rattle.std.specs.Prelude.{◌≡◌};
ghost use Rattle.std.specs.Option.{option_copied};
ghost use Rattle.fx_terms.specs.Terms.{datatype_of as datatype_of_term, tag_of as tag_of_term};
ghost use Rattle.fx_algebra.specs.Keys as spec;
ghost use Rattle.fx_algebra.specs.Worths as worths;
ghost use Rattle.fx_expr.specs.Keys.{key_worth as worth_of_key};

use crate::values::form_of;
use crate::worths::worth_of;
use fx_algebra::Worth;
use fx_terms::Term;
use std::cmp::Ordering;
use std::marker::Model;

/// A key of a row beside what it is worth, so that its text isn't read again for each comparison. Contracts see the value, or
/// `None` for an error or an unbound variable.
#[derive(Drop)]
pub struct Key {
    term: Option<Term>,
    worth: Worth,
}

impl Model for Key {
    ghost use Rattle.std.specs.Prelude.{◌≡◌, Option as Maybe};
    ghost use Rattle.fx_terms.specs.declared.terms.Term.{Term as TermParts};
    ghost use Rattle.fx_expr.specs.Keys.{key_worth};

    ghost Value = { Maybe TermParts };

    ghost view = { λ k. k.term };

    ghost invariant = { λ k. k.worth ≡ key_worth k.term };
}

impl Key {
    /// The key of a value. It takes no memory.
    pub fn of(term: Option<Term>) -> Key
        ensures { result ≡ term }
    {
        let worth = key_worth(term.as_ref());
        Key { term, worth }
    }

    /// The order of two keys, as `compare_keys` has it. It takes no memory.
    pub fn compare(&self, other: &Key) -> Ordering
        ensures { result ≡ spec.key_order self.now other.now }
    {
        compare_by(
            self.worth,
            self.term.as_ref(),
            other.worth,
            other.term.as_ref(),
        )
    }
}

/// The order of two values as keys (SPARQL 1.1 section 15.1), where `None` is the error or an unbound variable. It takes no
/// memory.
///
/// `None` comes first, then IRIs by code points, then literals: integers in the range of an `i64` by value, of whatever type of
/// integers they are, truth values with false first, strings by code points, and all others by datatype, language tag and form.
/// Integers that differ in their form or type alone are equal, and so are truth values that differ in their form.
pub fn compare_keys(left: Option<&Term>, right: Option<&Term>) -> Ordering
    ensures { result ≡ spec.key_order (option_copied left.entry) (option_copied right.entry) }
{
    compare_by(key_worth(left), left, key_worth(right), right)
}

fn key_worth(key: Option<&Term>) -> Worth
    ensures { result ≡ worth_of_key (option_copied key.entry) }
{
    match key {
        Some(term) => worth_of(term),
        None => Worth::Opaque,
    }
}

// The order of keys that are worth so much.
fn compare_by(v: Worth, left: Option<&Term>, w: Worth, right: Option<&Term>) -> Ordering
    requires left { v ≡ worth_of_key (option_copied left) }
    requires right { w ≡ worth_of_key (option_copied right) }
    ensures { result ≡ spec.key_order (option_copied left.entry) (option_copied right.entry) }
{
    match left {
        None => match right {
            None => Ordering::Equal,
            Some(_) => Ordering::Less,
        },
        Some(x) => match right {
            None => Ordering::Greater,
            Some(y) => compare_terms(v, x, w, y),
        },
    }
}

// The order of terms that are worth so much.
fn compare_terms(v: Worth, left: &Term, w: Worth, right: &Term) -> Ordering
    requires left { v ≡ worths.worth_of left.now }
    requires right { w ≡ worths.worth_of right.now }
    ensures { result ≡ spec.term_order left.now right.now }
{
    let places = place_by(v, left).cmp(&place_by(w, right));
    if places != Ordering::Equal {
        return places;
    }
    let numbers = number_by(v).cmp(&number_by(w));
    if numbers != Ordering::Equal {
        return numbers;
    }
    text_by(v, datatype_of(left))
        .cmp(text_by(w, datatype_of(right)))
        .then(text_by(v, tag_of(left)).cmp(text_by(w, tag_of(right))))
        .then(text_by(v, form_of(left)).cmp(text_by(w, form_of(right))))
}

// The place of a kind of values.
fn place_by(worth: Worth, term: &Term) -> u8
    ensures { result ≡ spec.place_by worth term.now }
{
    match worth {
        Worth::Integer(_) => 1,
        Worth::Boolean(_) => 2,
        Worth::Text => 3,
        Worth::Opaque => match term {
            Term::Iri(_) => 0,
            Term::Literal(_) => 4,
        },
    }
}

// The number by which integers and truth values are ordered.
fn number_by(worth: Worth) -> i64
    ensures { result ≡ spec.number_by worth }
{
    match worth {
        Worth::Integer(number) => number,
        Worth::Boolean(truth) => { if truth { 1 } else { 0 } }
        Worth::Text => 0,
        Worth::Opaque => 0,
    }
}

// A text by which all others are ordered.
fn text_by(worth: Worth, text: &str) -> &str
    ensures { result.now ≡ spec.text_by worth text.now }
{
    match worth {
        Worth::Integer(_) => "",
        Worth::Boolean(_) => "",
        Worth::Text => text,
        Worth::Opaque => text,
    }
}

fn datatype_of(term: &Term) -> &str
    ensures { result.now ≡ datatype_of_term term.now }
{
    match term {
        Term::Iri(_) => "",
        Term::Literal(literal) => literal.datatype().text(),
    }
}

fn tag_of(term: &Term) -> &str
    ensures { result.now ≡ tag_of_term term.now }
{
    match term {
        Term::Iri(_) => "",
        Term::Literal(literal) => literal.tag(),
    }
}
