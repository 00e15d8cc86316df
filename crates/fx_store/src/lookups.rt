//! Which triples of an order have the parts that are sought.
ghost use Rattle.std.specs.Prelude.{◌≡◌, ◌≤◌, ◌+◌, ◌*◌, ◌<◌, ℕ, List, true, false, filter, length, option_map, IfNone, IfSome};
ghost use Rattle.std.specs.List.Sorted.{IsPartitionPoint};
ghost use Rattle.std.specs.Option.{option_copied};
ghost use Rattle.fx_terms.specs.Terms.{term_cmp};
ghost use Rattle.fx_terms.specs.declared.terms.Term.TheVariants.{Iri as IriTerm};
ghost use Rattle.fx_terms.specs.declared.triples.Triple.{Triple as TripleTree};
ghost use Rattle.fx_algebra.specs.BasicGraphPatterns.{value_of};
ghost use Rattle.fx_store.specs.Orders.{in_order, term_at, IsWithin, triples_of};
ghost use Rattle.fx_store.specs.Lookups as spec;

use crate::orders::{Orders, Part, Run, Steps, first_of, next};
use fx_algebra::Solution;
use fx_terms::{Iri, Pattern, PatternTerm, Term, Triple};
use std::cmp::Ordering;
use std::marker::Model;
use std::sync::ledger::Ledger;

/// The parts of a triple that are sought, as far as they are known.
#[derive(Drop)]
pub(crate) struct Sought<'a> {
    subject: Option<&'a Iri>,
    predicate: Option<&'a Iri>,
    object: Option<&'a Term>,
}

impl<'a> Model for Sought<'a> {
    ghost use Rattle.std.specs.Prelude.{option_map};
    ghost use Rattle.std.specs.Option.{option_copied};
    ghost use Rattle.fx_terms.specs.declared.terms.Term.TheVariants.{Iri as IriTerm};
    ghost use Rattle.fx_store.specs.Lookups.{Known};

    ghost Value = { Known };

    ghost view = { λ s. record { subject = option_map IriTerm (option_copied s.subject); predicate = option_map IriTerm (option_copied s.predicate); object = option_copied s.object } };
}

// The two ends of a run: its first place, and the place behind its last.
#[derive(Clone, Copy)]
enum End {
    First,
    Last,
}

impl<'a> Sought<'a> {
    /// The parts that a pattern has under a solution. `None` where a literal stands in a place in which no triple has one.
    pub(crate) fn of(pattern: &'a Pattern, solution: &'a Solution) -> Option<Sought<'a>>
        ensures found { IfSome result (λ sought. sought ≡ spec.known_of pattern.now solution.now) }
        ensures none { IfNone result ((t : TripleTree) → spec.has_parts (spec.known_of pattern.now solution.now) t ≡ false) }
    {
        let subject = iri(value(&pattern.subject, solution))?;
        let predicate = iri(value(&pattern.predicate, solution))?;
        Some(Sought {
            subject,
            predicate,
            object: value(&pattern.object, solution),
        })
    }

    /// All parts of a triple.
    pub(crate) fn triple(triple: &'a Triple) -> Sought<'a>
        ensures { result ≡ spec.known_all triple.now }
    {
        Sought {
            subject: Some(&triple.subject),
            predicate: Some(&triple.predicate),
            object: Some(&triple.object),
        }
    }

    /// The order in which the known parts come first.
    fn order(&self) -> u32
        ensures order { result ≡ spec.order_for self.now }
        ensures below { result < 3 }
    {
        match (self.subject, self.predicate, self.object) {
            (Some(_), Some(_), _) => 0,
            (Some(_), None, None) => 0,
            (Some(_), None, Some(_)) => 2,
            (None, Some(_), _) => 1,
            (None, None, Some(_)) => 2,
            (None, None, None) => 0,
        }
    }

    /// Whether the predicate alone is known.
    pub(crate) fn is_predicate_alone(&self) -> bool
        ensures { result ≡ spec.is_predicate_alone self.now }
    {
        self.subject.is_none() && self.predicate.is_some() && self.object.is_none()
    }
}

/// The triples that have the parts that are sought, as a run of the order in which these parts come first.
pub(crate) fn run<L: Ledger>(orders: &Orders, sought: &Sought<'_>, steps: &mut Steps<L>) -> Run
    ensures order { result.order ≡ spec.order_for sought.now }
    ensures within { IsWithin result orders.now }
    ensures run { triples_of result orders.now ≡ filter (spec.has_parts sought.now) (in_order result.order orders.now) }
    ensures steps { steps.new ≤ steps.old + 2 * spec.binary_digits (length orders.now) }
{
    orders.known();
    let order = sought.order();
    let start = search(orders, order, sought, End::First, steps);
    let end = search(orders, order, sought, End::Last, steps);
    Run { order, start, end }
}

/// How many triples have the parts that a pattern has under a row. It takes no memory.
pub(crate) fn count<L: Ledger>(
    orders: &Orders,
    pattern: &Pattern,
    row: &Solution,
    steps: &mut Steps<L>,
) -> u64
    ensures count { result ≡ length (filter (spec.has_parts (spec.known_of pattern.now row.now)) orders.now) }
    ensures steps { steps.new ≤ steps.old + 2 * spec.binary_digits (length orders.now) }
{
    match Sought::of(pattern, row) {
        None => 0,
        Some(sought) => count_of(orders, &sought, steps),
    }
}

fn count_of<L: Ledger>(orders: &Orders, sought: &Sought<'_>, steps: &mut Steps<L>) -> u64
    ensures count { result ≡ length (filter (spec.has_parts sought.now) orders.now) }
    ensures steps { steps.new ≤ steps.old + 2 * spec.binary_digits (length orders.now) }
{
    let found = run(orders, sought, steps);
    found.end - found.start
}

// The first place of an order whose triple doesn't stand in front of an end of those that are sought, by halves.
fn search<L: Ledger>(
    orders: &Orders,
    order: u32,
    sought: &Sought<'_>,
    end: End,
    steps: &mut Steps<L>,
) -> u64
    requires { order < 3 }
    ensures within { result ≤ length orders.now }
    ensures point { IsPartitionPoint (λ t. spec.stands_in_front order sought.now end t ≡ true) (λ t. spec.stands_in_front order sought.now end t ≡ false) (in_order order orders.now) result }
    ensures steps { steps.new ≤ steps.old + spec.binary_digits (length orders.now) }
{
    orders.known();
    let mut low = 0;
    let mut high = orders.count();
    while low < high {
        let middle = low + (high - low) / 2;
        if is_in_front(order, sought, end, orders.look(order, middle, steps)) {
            low = middle + 1;
        } else {
            high = middle;
        }
    }
    low
}

// Whether a triple stands in front of an end of those that are sought, in an order.
fn is_in_front(order: u32, sought: &Sought<'_>, end: End, triple: &Triple) -> bool
    requires { order < 3 }
    ensures { result ≡ spec.stands_in_front order sought.now end triple.now }
{
    let place = place(first_of(order), sought, triple);
    match end {
        End::First => place == Ordering::Less,
        End::Last => place != Ordering::Greater,
    }
}

// How a triple stands to those that are sought, in the order that begins with a part.
fn place(first: Part, sought: &Sought<'_>, triple: &Triple) -> Ordering
    ensures { result ≡ spec.place first sought.now triple.now }
{
    match against(first, sought, triple) {
        None => Ordering::Equal,
        Some(Ordering::Equal) => place_second(next(first), sought, triple),
        Some(order) => order,
    }
}

fn place_second(second: Part, sought: &Sought<'_>, triple: &Triple) -> Ordering
    ensures { result ≡ spec.place_second second sought.now triple.now }
{
    match against(second, sought, triple) {
        None => Ordering::Equal,
        Some(Ordering::Equal) => place_third(next(second), sought, triple),
        Some(order) => order,
    }
}

fn place_third(third: Part, sought: &Sought<'_>, triple: &Triple) -> Ordering
    ensures { result ≡ spec.place_third third sought.now triple.now }
{
    match against(third, sought, triple) {
        None => Ordering::Equal,
        Some(order) => order,
    }
}

// How a part of a triple stands to the one that is sought, where one is.
fn against(part: Part, sought: &Sought<'_>, triple: &Triple) -> Option<Ordering>
    ensures { result ≡ option_map (term_cmp (term_at part triple.now)) (spec.known_at part sought.now) }
{
    match part {
        Part::Subject => against_iri(&triple.subject, sought.subject),
        Part::Predicate => against_iri(&triple.predicate, sought.predicate),
        Part::Object => against_term(&triple.object, sought.object),
    }
}

fn against_iri(iri: &Iri, sought: Option<&Iri>) -> Option<Ordering>
    ensures { result ≡ option_map (term_cmp (IriTerm iri.now)) (option_map IriTerm (option_copied sought.entry)) }
{
    match sought {
        None => None,
        Some(other) => Some(iri.cmp(other)),
    }
}

fn against_term(term: &Term, sought: Option<&Term>) -> Option<Ordering>
    ensures { result ≡ option_map (term_cmp term.now) (option_copied sought.entry) }
{
    match sought {
        None => None,
        Some(other) => Some(term.cmp(other)),
    }
}

// The IRI that a value is, where there is a value. `None` where it is a literal.
fn iri(value: Option<&Term>) -> Option<Option<&Iri>>
    ensures found { IfSome result (λ iri. option_map IriTerm (option_copied iri) ≡ option_copied value.entry) }
    ensures none { IfNone result ((text : List ℕ) → spec.is_or_free (option_copied value.entry) (IriTerm text) ≡ false) }
{
    match value {
        None => Some(None),
        Some(Term::Iri(iri)) => Some(Some(iri)),
        Some(Term::Literal(_)) => None,
    }
}

/// The term that a part is under a row, where it is one.
pub(crate) fn value<'a>(part: &'a PatternTerm, row: &'a Solution) -> Option<&'a Term>
    ensures { option_copied result ≡ value_of row.now part.now }
{
    match part {
        PatternTerm::Variable(name) => row.get(name),
        PatternTerm::Constant(term) => Some(term),
    }
}
