//! One pattern beside one row (SPARQL 1.1 section 18.3): the triples that fit, and what the row is with each of them.
ghost use Rattle.std.specs.Prelude.{◌≡◌, ◌≤◌, ◌+◌, ◌-◌, ◌++◌, is_some, length, true, IfOk, OnOk, None, Some};
ghost use Rattle.std.specs.List.{filter_map, slice_get};
ghost use Rattle.std.specs.Option.{option_copied, option_to_list};
ghost use Rattle.fx_terms.specs.declared.terms.Term.TheVariants.{Iri as IriTerm};
ghost use Rattle.fx_algebra.specs.Solutions.{same_term, term_of, with_pair};
ghost use Rattle.fx_algebra.specs.Sequences.{sorted_by};
ghost use Rattle.fx_algebra.specs.BasicGraphPatterns.{parts_of, forced};
ghost use Rattle.fx_store.specs.Lookups as spec;
ghost use Rattle.fx_store.specs.Orders.{order_cmp, triples_of, AreFound, IsWithin};
ghost use Rattle.fx_store.specs.declared.orders.Part.TheVariants.{Subject as BySubject};

use crate::lookups::{Sought, run, value};
use crate::orders::{Orders, Run, Steps};
use fx_algebra::Solution;
use fx_terms::{Iri, Memory, Name, Pattern, PatternTerm, Term, Triple};
use std::alloc::Global;
use std::sync::ledger::Ledger;

/// A row with each triple that fits it, in the order of the triples.
pub(crate) fn rows_of<L: Ledger>(
    alloc: Global,
    orders: &Orders,
    pattern: &Pattern,
    row: &Solution,
    steps: &mut Steps<L>,
) -> Result<Vec<Solution>, Memory>
    ensures rows { IfOk result (λ rows. rows.items ≡ filter_map (λ t. forced row.now (parts_of pattern.now t)) orders.now) }
    ensures steps { steps.new ≤ steps.old + spec.most_steps orders.now pattern.now row.now }
{
    match Sought::of(pattern, row) {
        None => Ok(Vec::new(alloc)),
        Some(sought) => rows_with_parts(alloc, orders, &sought, pattern, row, steps),
    }
}

// The same, by the parts that the pattern has under the row.
fn rows_with_parts<L: Ledger>(
    alloc: Global,
    orders: &Orders,
    sought: &Sought<'_>,
    pattern: &Pattern,
    row: &Solution,
    steps: &mut Steps<L>,
) -> Result<Vec<Solution>, Memory>
    requires { sought.now ≡ spec.known_of pattern.now row.now }
    ensures rows { IfOk result (λ rows. rows.items ≡ filter_map (λ t. forced row.now (parts_of pattern.now t)) orders.now) }
    ensures steps { steps.new ≤ steps.old + spec.most_steps orders.now pattern.now row.now }
{
    orders.known();
    let run = run(orders, sought, steps);
    if sought.is_predicate_alone() {
        rows_in_order(alloc, orders, run, pattern, row, steps)
    } else {
        rows_of_run(alloc, orders, run, pattern, row, steps)
    }
}

// A row with each triple of a run that fits it, in the order of the run.
fn rows_of_run<L: Ledger>(
    alloc: Global,
    orders: &Orders,
    run: Run,
    pattern: &Pattern,
    row: &Solution,
    steps: &mut Steps<L>,
) -> Result<Vec<Solution>, Memory>
    requires { IsWithin run orders.now }
    ensures rows { IfOk result (λ rows. rows.items ≡ filter_map (λ t. forced row.now (parts_of pattern.now t)) (triples_of run orders.now)) }
    ensures steps { steps.new ≤ steps.old + (run.end - run.start) }
{
    let mut rows = Vec::new(alloc);
    for place in run.start..run.end {
        let triple = orders.look(run.order, place, steps);
        add_if_fitting(alloc, &mut rows, triple, pattern, row)?;
    }
    Ok(rows)
}

// The same in the order of subject, predicate, object.
fn rows_in_order<L: Ledger>(
    alloc: Global,
    orders: &Orders,
    run: Run,
    pattern: &Pattern,
    row: &Solution,
    steps: &mut Steps<L>,
) -> Result<Vec<Solution>, Memory>
    requires { IsWithin run orders.now }
    ensures rows { IfOk result (λ rows. rows.items ≡ filter_map (λ t. forced row.now (parts_of pattern.now t)) (sorted_by (order_cmp BySubject) (triples_of run orders.now))) }
    ensures steps { steps.new ≤ steps.old + (run.end - run.start) }
{
    let places = orders.places(alloc, run)?;
    rows_at(alloc, orders, places.as_slice(), pattern, row, steps)
}

// A row with each of the triples at places of the graph that fits it.
fn rows_at<L: Ledger>(
    alloc: Global,
    orders: &Orders,
    places: &[usize],
    pattern: &Pattern,
    row: &Solution,
    steps: &mut Steps<L>,
) -> Result<Vec<Solution>, Memory>
    requires { AreFound orders.now places.now }
    ensures rows { IfOk result (λ rows. rows.items ≡ filter_map (λ t. forced row.now (parts_of pattern.now t)) (filter_map (slice_get orders.now) places.now)) }
    ensures steps { steps.new ≤ steps.old + length places.now }
{
    let mut rows = Vec::new(alloc);
    for place in places {
        let triple = orders.look(0, *place as u64, steps);
        add_if_fitting(alloc, &mut rows, triple, pattern, row)?;
    }
    Ok(rows)
}

// Adds a row with a triple, if that fits it.
fn add_if_fitting(
    alloc: Global,
    rows: &mut Vec<Solution>,
    triple: &Triple,
    pattern: &Pattern,
    row: &Solution,
) -> Result<(), Memory>
    ensures { OnOk result (rows.new.items ≡ rows.old.items ++ option_to_list (forced row.now (parts_of pattern.now triple.now))) }
{
    if fits(pattern, row, triple) {
        rows.push(with_triple(alloc, row, pattern, triple)?)?;
    }
    Ok(())
}

/// Whether a triple fits a pattern under a row. It takes no memory.
pub(crate) fn fits(pattern: &Pattern, row: &Solution, triple: &Triple) -> bool
    ensures { result ≡ is_some (forced row.now (parts_of pattern.now triple.now)) }
{
    fits_subject(pattern, row, triple)
        && fits_predicate(pattern, row, triple)
        && fits_object(pattern, row, triple)
}

fn fits_subject(pattern: &Pattern, row: &Solution, triple: &Triple) -> bool
    ensures { result ≡ spec.fits_subject pattern.now row.now triple.now }
{
    is_or_free_iri(value(&pattern.subject, row), &triple.subject)
}

fn fits_predicate(pattern: &Pattern, row: &Solution, triple: &Triple) -> bool
    ensures { result ≡ spec.fits_predicate pattern.now row.now triple.now }
{
    if is_one_variable(&pattern.subject, &pattern.predicate) {
        return triple.subject == triple.predicate;
    }
    is_or_free_iri(value(&pattern.predicate, row), &triple.predicate)
}

fn fits_object(pattern: &Pattern, row: &Solution, triple: &Triple) -> bool
    ensures { result ≡ spec.fits_object pattern.now row.now triple.now }
{
    if is_one_variable(&pattern.predicate, &pattern.object) {
        return is_iri(&triple.object, &triple.predicate);
    }
    if is_one_variable(&pattern.subject, &pattern.object) {
        return is_iri(&triple.object, &triple.subject);
    }
    is_or_free(value(&pattern.object, row), &triple.object)
}

// Whether a value, where there is one, is the term.
fn is_or_free(value: Option<&Term>, term: &Term) -> bool
    ensures { result ≡ spec.is_or_free (option_copied value.entry) term.now }
{
    match value {
        None => true,
        Some(value) => *value == *term,
    }
}

fn is_or_free_iri(value: Option<&Term>, iri: &Iri) -> bool
    ensures { result ≡ spec.is_or_free (option_copied value.entry) (IriTerm iri.now) }
{
    match value {
        None => true,
        Some(value) => is_iri(value, iri),
    }
}

fn is_iri(term: &Term, iri: &Iri) -> bool
    ensures { result ≡ same_term term.now (IriTerm iri.now) }
{
    match term {
        Term::Iri(other) => *other == *iri,
        Term::Literal(_) => false,
    }
}

fn is_one_variable(left: &PatternTerm, right: &PatternTerm) -> bool
    ensures { result ≡ spec.is_one_variable left.now right.now }
{
    match left {
        PatternTerm::Constant(_) => false,
        PatternTerm::Variable(name) => is_variable(right, name),
    }
}

fn is_variable(part: &PatternTerm, name: &Name) -> bool
    ensures { result ≡ spec.is_variable part.now name.now }
{
    match part {
        PatternTerm::Constant(_) => false,
        PatternTerm::Variable(other) => *other == *name,
    }
}

// The row with what a triple adds that fits it.
fn with_triple(
    alloc: Global,
    row: &Solution,
    pattern: &Pattern,
    triple: &Triple,
) -> Result<Solution, Memory>
    requires { is_some (forced row.now (parts_of pattern.now triple.now)) ≡ true }
    ensures { IfOk result (λ more. forced row.now (parts_of pattern.now triple.now) ≡ Some more) }
{
    match free(&pattern.subject, row) {
        None => with_predicate(alloc, row, pattern, triple),
        Some(name) => {
            let more = with_iri(alloc, row, name, &triple.subject)?;
            and_predicate(alloc, more, pattern, triple)
        }
    }
}

// A row with what the parts behind the subject add.
fn with_predicate(
    alloc: Global,
    row: &Solution,
    pattern: &Pattern,
    triple: &Triple,
) -> Result<Solution, Memory>
    requires { is_some (forced row.now (spec.behind_subject pattern.now triple.now)) ≡ true }
    ensures { IfOk result (λ more. forced row.now (spec.behind_subject pattern.now triple.now) ≡ Some more) }
{
    match free(&pattern.predicate, row) {
        None => with_object(alloc, row, pattern, triple),
        Some(name) => {
            let more = with_iri(alloc, row, name, &triple.predicate)?;
            and_object(alloc, more, pattern, triple)
        }
    }
}

// The same of a row that is handed over.
fn and_predicate(
    alloc: Global,
    row: Solution,
    pattern: &Pattern,
    triple: &Triple,
) -> Result<Solution, Memory>
    requires { is_some (forced row (spec.behind_subject pattern.now triple.now)) ≡ true }
    ensures { IfOk result (λ more. forced row (spec.behind_subject pattern.now triple.now) ≡ Some more) }
{
    match free(&pattern.predicate, &row) {
        None => and_object(alloc, row, pattern, triple),
        Some(name) => {
            let more = with_iri(alloc, &row, name, &triple.predicate)?;
            and_object(alloc, more, pattern, triple)
        }
    }
}

// A row with what the object adds.
fn with_object(
    alloc: Global,
    row: &Solution,
    pattern: &Pattern,
    triple: &Triple,
) -> Result<Solution, Memory>
    requires { is_some (forced row.now (spec.behind_predicate pattern.now triple.now)) ≡ true }
    ensures { IfOk result (λ more. forced row.now (spec.behind_predicate pattern.now triple.now) ≡ Some more) }
{
    match free(&pattern.object, row) {
        None => row.copy(alloc),
        Some(name) => row.with(alloc, name, &triple.object),
    }
}

// The same of a row that is handed over.
fn and_object(
    alloc: Global,
    row: Solution,
    pattern: &Pattern,
    triple: &Triple,
) -> Result<Solution, Memory>
    requires { is_some (forced row (spec.behind_predicate pattern.now triple.now)) ≡ true }
    ensures { IfOk result (λ more. forced row (spec.behind_predicate pattern.now triple.now) ≡ Some more) }
{
    match free(&pattern.object, &row) {
        None => Ok(row),
        Some(name) => row.with(alloc, name, &triple.object),
    }
}

// The name of a part, where it is a variable that a row leaves unbound.
fn free<'a>(part: &'a PatternTerm, row: &Solution) -> Option<&'a Name>
    ensures { option_copied result ≡ spec.free_name row.now part.now }
{
    match part {
        PatternTerm::Constant(_) => None,
        PatternTerm::Variable(name) => match row.get(name) {
            Some(_) => None,
            None => Some(name),
        },
    }
}

// A row with an IRI under a name that it leaves unbound.
fn with_iri(alloc: Global, row: &Solution, name: &Name, iri: &Iri) -> Result<Solution, Memory>
    requires { term_of row.now name.now ≡ None }
    ensures { IfOk result (λ more. more ≡ with_pair row.now name.now (IriTerm iri.now)) }
{
    let term = Term::Iri(iri.copy()?);
    row.with(alloc, name, &term)
}
