//! A graph in three orders, in which each look at a triple is counted.
ghost use Rattle.std.specs.Prelude.{◌≡◌, ◌+◌, ◌<◌, length, map, IfOk, Some};
ghost use Rattle.std.specs.List.{slice_get};
ghost use Rattle.std.specs.Option.{option_copied};
ghost use Rattle.fx_terms.specs.Graphs.{IsGraph};
ghost use Rattle.fx_algebra.specs.Sequences.{sorted_by};
ghost use Rattle.fx_store.specs.Orders as spec;
ghost use Rattle.fx_store.specs.declared.orders.Part.TheVariants.{Subject as BySubject};

use crate::ranks::ranked_places;
use fx_terms::{Graph, Memory, Triple};
use std::alloc::Global;
use std::cmp::Ordering;
use std::marker::Model;
use std::sync::ledger::{Book, Ledger, Share};

/// How many triples were looked at. Contracts see the number.
///
/// It is made from the book of a ledger, so a call that is generic over the ledger can't make another of that ledger: what it counts
/// there its caller sees. It takes no bytes.
#[derive(Drop)]
pub struct Steps<L: Ledger> {
    book: Book<L>,
    share: Share<L>,
}

impl<L: Ledger> Model for Steps<L> {
    ghost use Rattle.std.specs.Prelude.{ℕ, ◌<◌};

    ghost Value = { ℕ };

    ghost view = { λ s. s.book.total };

    ghost invariant = { λ s. 0 < s.share.parts };
}

impl<L: Ledger> Steps<L> {
    /// The steps that a book counts, with a share of its ledger that has a part at least. It takes no memory.
    pub fn of(book: Book<L>, share: Share<L>) -> Steps<L>
        requires { 0 < share.parts }
        ensures { result ≡ book.total }
    {
        Steps { book, share }
    }

    fn add(&mut self)
        ensures { self.new ≡ self.old + 1 }
    {
        self.book.add(&mut self.share, 1)
    }
}

/// A part of a triple. Each order of triples begins with one and goes round: behind the object comes the subject.
#[derive(Clone, Copy)]
pub(crate) enum Part {
    Subject,
    Predicate,
    Object,
}

/// The triples of an order from one place up to another.
#[derive(Clone, Copy)]
pub(crate) struct Run {
    pub order: u32,
    pub start: u64,
    pub end: u64,
}

/// A graph, and two further orders of the places of its triples. Contracts see the list of its triples.
///
/// Order 0 is the graph's own, by subject, predicate, object; order 1 is by predicate, object, subject, and order 2 by object,
/// subject, predicate. Whichever parts of a triple are known, in one of them these come first.
#[derive(Drop)]
pub struct Orders {
    // (large lists are let go before many small texts are: an allocator would go over all of these for each list)
    by_predicate: Vec<usize>,
    by_object: Vec<usize>,
    graph: Graph,
}

impl Model for Orders {
    ghost use Rattle.std.specs.Prelude.{List};
    ghost use Rattle.fx_terms.specs.declared.triples.Triple.{Triple as TripleTree};
    ghost use Rattle.fx_store.specs.Orders.{IsOrders};

    ghost Value = { List TripleTree };

    ghost view = { λ o. o.graph };

    ghost invariant = { λ o. IsOrders o.graph o.by_predicate.items o.by_object.items };
}

impl Orders {
    /// The three orders of a graph.
    pub fn of(alloc: Global, graph: Graph) -> Result<Orders, Memory>
        ensures { IfOk result (λ orders. orders ≡ graph) }
    {
        let (by_predicate, by_object) = ranked_places(alloc, graph.triples())?;
        let by_predicate = places_by(graph.triples(), Part::Predicate, by_predicate)?;
        let by_object = places_by(graph.triples(), Part::Object, by_object)?;
        Ok(Orders {
            graph,
            by_predicate,
            by_object,
        })
    }

    /// How many triples there are. It takes no memory.
    pub fn count(&self) -> u64
        ensures { result ≡ length self.now }
    {
        self.graph.triples().len() as u64
    }

    /// The triple at a place of an order, which is one step. It takes no memory.
    pub fn look<L: Ledger>(&self, order: u32, place: u64, steps: &mut Steps<L>) -> &Triple
        requires order { order < 3 }
        requires place { place < length self.now }
        ensures triple { slice_get (spec.in_order order self.now) place ≡ Some result.now }
        ensures step { steps.new ≡ steps.old + 1 }
    {
        steps.add();
        let place = self.place_in(order, place as usize);
        &self.graph.triples()[place]
    }

    /// That they are the triples of a graph, for a proof that needs to know. It does nothing.
    pub fn known(&self)
        ensures { IsGraph self.now }
    {
        let _triples = self.graph.triples();
    }

    /// Where order 0 has the triples of a run, in that order. It looks at no triple.
    pub(crate) fn places(&self, alloc: Global, run: Run) -> Result<Vec<usize>, Memory>
        requires { spec.IsWithin run self.now }
        ensures { IfOk result (λ places. map (slice_get self.now) places.items ≡ map Some (sorted_by (spec.order_cmp BySubject) (spec.triples_of run self.now))) }
    {
        self.known();
        let mut places = self.places_of(alloc, run)?;
        places.sort()?;
        Ok(places)
    }

    // The same in the order of the run.
    fn places_of(&self, alloc: Global, run: Run) -> Result<Vec<usize>, Memory>
        requires { spec.IsWithin run self.now }
        ensures { IfOk result (λ places. map (slice_get self.now) places.items ≡ map Some (spec.triples_of run self.now)) }
    {
        let mut places = Vec::new(alloc);
        for place in run.start..run.end {
            places.push(self.place_in(run.order, place as usize))?;
        }
        Ok(places)
    }

    // Where the graph has the triple at a place of an order.
    fn place_in(&self, order: u32, place: usize) -> usize
        requires order { order < 3 }
        requires place { place < length self.now }
        ensures triple { slice_get (spec.in_order order self.now) place ≡ slice_get self.now result }
        ensures within { result < length self.now }
    {
        match order {
            0 => place,
            1 => place_at(
                self.graph.triples(),
                Part::Predicate,
                self.by_predicate.as_slice(),
                place,
            ),
            _ => place_at(
                self.graph.triples(),
                Part::Object,
                self.by_object.as_slice(),
                place,
            ),
        }
    }
}

// What stands at a place of a further order: the place of a triple.
fn place_at(triples: &[Triple], _first: Part, places: &[usize], place: usize) -> usize
    requires order { spec.AreInOrder (spec.order_cmp _first) triples.now places.now }
    requires place { place < length triples.now }
    ensures triple { slice_get (sorted_by (spec.order_cmp _first) triples.now) place ≡ slice_get triples.now result }
    ensures within { result < length triples.now }
{
    places[place]
}

// The places of all triples, in the order that begins with a part. It is fast where they stand in long runs that rise by it.
fn places_by(triples: &[Triple], first: Part, mut places: Vec<usize>) -> Result<Vec<usize>, Memory>
    requires { spec.AreAll triples.now places.items }
    ensures { IfOk result (λ sorted. spec.AreInOrder (spec.order_cmp first) triples.now sorted.items) }
{
    places.sort_by(|left, right| compare_at(triples, first, *left, *right))?;
    Ok(places)
}

/// How the triples at two places stand in the order that begins with a part. A place without a triple comes first.
pub(crate) fn compare_at(triples: &[Triple], first: Part, left: usize, right: usize) -> Ordering
    ensures { result ≡ spec.found_cmp (spec.order_cmp first) (slice_get triples.now left) (slice_get triples.now right) }
{
    compare_found(first, triples.get(left), triples.get(right))
}

fn compare_found(first: Part, left: Option<&Triple>, right: Option<&Triple>) -> Ordering
    ensures { result ≡ spec.found_cmp (spec.order_cmp first) (option_copied left.entry) (option_copied right.entry) }
{
    match left {
        None => match right {
            None => Ordering::Equal,
            Some(_) => Ordering::Less,
        },
        Some(x) => match right {
            None => Ordering::Greater,
            Some(y) => compare_triples(first, x, y),
        },
    }
}

// By a part, and then by the two behind it.
fn compare_triples(first: Part, left: &Triple, right: &Triple) -> Ordering
    ensures { result ≡ spec.order_cmp first left.now right.now }
{
    match compare_part(first, left, right) {
        Ordering::Less => Ordering::Less,
        Ordering::Greater => Ordering::Greater,
        Ordering::Equal => compare_behind(next(first), left, right),
    }
}

fn compare_behind(second: Part, left: &Triple, right: &Triple) -> Ordering
    ensures { result ≡ spec.two_cmp second left.now right.now }
{
    match compare_part(second, left, right) {
        Ordering::Less => Ordering::Less,
        Ordering::Greater => Ordering::Greater,
        Ordering::Equal => compare_part(next(second), left, right),
    }
}

fn compare_part(part: Part, left: &Triple, right: &Triple) -> Ordering
    ensures { result ≡ spec.part_cmp part left.now right.now }
{
    match part {
        Part::Subject => left.subject.cmp(&right.subject),
        Part::Predicate => left.predicate.cmp(&right.predicate),
        Part::Object => left.object.cmp(&right.object),
    }
}

/// The part behind a part.
pub(crate) fn next(part: Part) -> Part
    ensures { result ≡ spec.next part }
{
    match part {
        Part::Subject => Part::Predicate,
        Part::Predicate => Part::Object,
        Part::Object => Part::Subject,
    }
}

/// The part that an order begins with.
pub(crate) fn first_of(order: u32) -> Part
    requires { order < 3 }
    ensures { result ≡ spec.first_of order }
{
    match order {
        0 => Part::Subject,
        1 => Part::Predicate,
        _ => Part::Object,
    }
}
