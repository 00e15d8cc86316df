//! The places of triples in a first order, which numbers give.
//!
//! To compare two terms is to follow their texts through memory, and a sort of a million triples would do so some twenty times for
//! each of them. So numbers stand beside each place: which predicate its triple has, and the first bytes in which the objects of
//! that predicate differ. The places are sorted by these, and terms are compared only where they tie. The sorts of `orders` find
//! long runs then, and mostly compare each triple with the next alone.
//!
//! Nothing rests on these numbers. Where they mislead, those sorts take longer. What is proved here is that no place is lost.
ghost use Rattle.std.specs.Prelude.{◌≡◌, ◌≤◌, IfOk, Some, length, map};
ghost use Rattle.std.specs.List.{slice_get};
ghost use Rattle.fx_store.specs.Orders.{AreAll};
ghost use Rattle.fx_store.specs.Ranks as spec;

use crate::orders::{Part, compare_at};
use fx_terms::{Iri, Memory, Term, Triple};
use std::alloc::Global;
use std::cmp::Ordering;

// How many triples, spread over all, tell which predicates there are.
const SAMPLES: usize = 4096;

// How many bytes of an object's text its number has.
const BYTES: usize = 7;

// What stands in front of these bytes counts so much.
const ABOVE_BYTES: u64 = 1 << 56;

// The factor of the FNV hash in 64 bits.
const FACTOR: u64 = 1_099_511_628_211;

// A predicate, and what the texts of most objects beside it begin with.
#[derive(Clone, Copy)]
struct Predicate<'a> {
    iri: &'a Iri,
    front: &'a [u8],
}

/// The place of a triple, and what it is sorted by before its terms are.
#[derive(Clone, Copy)]
pub(crate) struct Ranked {
    predicate: usize,
    object: u64,
    rest: u64,
    pub place: usize,
}

// The triples of a predicate that have objects of one kind, as they stand side by side. Whose turn comes when is by their first objects.
#[derive(Clone, Copy)]
struct Stretch {
    predicate: usize,
    kind: u64,
    first: usize,
    turn: usize,
}

/// The places of all triples twice: mostly by predicate, object and subject, and the same with the objects of a kind beside each
/// predicate moved as a whole, so that they are mostly by object where those of different predicates don't overlap.
pub(crate) fn ranked_places(
    alloc: Global,
    triples: &[Triple],
) -> Result<(Vec<usize>, Vec<usize>), Memory>
    ensures first { IfOk result (λ both. AreAll triples.now both.0.items) }
    ensures second { IfOk result (λ both. AreAll triples.now both.1.items) }
{
    let mut ranked = ranked_triples(alloc, triples)?;
    ranked.sort_unstable_by(|left, right| compare(triples, left, right));
    let by_predicate = places_of(alloc, ranked.as_slice())?;
    let stretches = stretches_of(alloc, triples, ranked.as_slice())?;
    let mut turned = turned(alloc, stretches.as_slice(), ranked.as_slice())?;
    turned.sort_by(|left, right| left.predicate.cmp(&right.predicate))?;
    let by_object = places_of(alloc, turned.as_slice())?;
    Ok((by_predicate, by_object))
}

fn ranked_triples(alloc: Global, triples: &[Triple]) -> Result<Vec<Ranked>, Memory>
    ensures { IfOk result (λ ranked. map (slice_get triples.now) (spec.places_of ranked.items) ≡ map Some triples.now) }
{
    let predicates = predicates_of(alloc, triples)?;
    let mut ranked = Vec::with_capacity(alloc, triples.len())?;
    for place in 0..triples.len() {
        ranked.push(rank(predicates.as_slice(), &triples[place], place))?;
    }
    Ok(ranked)
}

fn places_of(alloc: Global, ranked: &[Ranked]) -> Result<Vec<usize>, Memory>
    ensures { IfOk result (λ places. places.items ≡ spec.places_of ranked.now) }
{
    let mut places = Vec::with_capacity(alloc, ranked.len())?;
    for one in ranked {
        places.push(one.place)?;
    }
    Ok(places)
}

// By the numbers, then by predicate and object, and then by the place, since the graph's own order goes by subject first.
fn compare(triples: &[Triple], left: &Ranked, right: &Ranked) -> Ordering {
    if left.predicate != right.predicate {
        left.predicate.cmp(&right.predicate)
    } else if left.object != right.object {
        left.object.cmp(&right.object)
    } else if left.rest == right.rest {
        left.place.cmp(&right.place)
    } else {
        compare_at(triples, Part::Predicate, left.place, right.place)
    }
}

// The stretches of what is sorted by its numbers, in the order of their predicates and kinds, each with its turn.
fn stretches_of(
    alloc: Global,
    triples: &[Triple],
    ranked: &[Ranked],
) -> Result<Vec<Stretch>, Memory> {
    let mut found = found_stretches(alloc, ranked)?;
    found.sort_unstable_by(|left, right| compare_at(
        triples,
        Part::Object,
        left.first,
        right.first,
    ));
    let mut stretches = with_turns(alloc, found.as_slice())?;
    stretches.sort_unstable_by(compare_stretches);
    Ok(stretches)
}

fn found_stretches(alloc: Global, ranked: &[Ranked]) -> Result<Vec<Stretch>, Memory> {
    let mut found = Vec::new(alloc);
    for one in ranked {
        if !stands_in(found.last(), one) {
            found.push(stretch_from(one))?;
        }
    }
    Ok(found)
}

fn with_turns(alloc: Global, found: &[Stretch]) -> Result<Vec<Stretch>, Memory> {
    let mut stretches = Vec::with_capacity(alloc, found.len())?;
    for (turn, stretch) in found.iter().enumerate() {
        stretches.push(with_turn(stretch, turn))?;
    }
    Ok(stretches)
}

fn stretch_from(one: &Ranked) -> Stretch {
    Stretch {
        predicate: one.predicate,
        kind: kind_in(one.object),
        first: one.place,
        turn: 0,
    }
}

fn with_turn(stretch: &Stretch, turn: usize) -> Stretch {
    Stretch {
        predicate: stretch.predicate,
        kind: stretch.kind,
        first: stretch.first,
        turn,
    }
}

fn stands_in(stretch: Option<&Stretch>, one: &Ranked) -> bool {
    match stretch {
        None => false,
        Some(stretch) => {
            stretch.predicate == one.predicate && stretch.kind == kind_in(one.object)
        }
    }
}

fn compare_stretches(left: &Stretch, right: &Stretch) -> Ordering {
    if left.predicate != right.predicate {
        left.predicate.cmp(&right.predicate)
    } else {
        left.kind.cmp(&right.kind)
    }
}

// The same places, each with the turn of its stretch as its first number.
fn turned(alloc: Global, stretches: &[Stretch], ranked: &[Ranked]) -> Result<Vec<Ranked>, Memory>
    ensures { IfOk result (λ turned. spec.places_of turned.items ≡ spec.places_of ranked.now) }
{
    let mut all = Vec::with_capacity(alloc, ranked.len())?;
    for one in ranked {
        all.push(with_turn_of(stretches, one))?;
    }
    Ok(all)
}

fn with_turn_of(stretches: &[Stretch], one: &Ranked) -> Ranked
    ensures { result.place ≡ one.now.place }
{
    let place = stretches.partition_point(|stretch| comes_earlier(stretch, one));
    let turn = match stretches.get(place) {
        None => 0,
        Some(stretch) => stretch.turn,
    };
    Ranked {
        predicate: turn,
        object: one.object,
        rest: one.rest,
        place: one.place,
    }
}

fn comes_earlier(stretch: &Stretch, one: &Ranked) -> bool {
    compare_stretches(stretch, &stretch_from(one)) == Ordering::Less
}

// The kind that the first number of an object begins with.
fn kind_in(object: u64) -> u64 {
    object / ABOVE_BYTES
}

// The predicates of some triples, in their order.
fn predicates_of<'a>(alloc: Global, triples: &'a [Triple]) -> Result<Vec<Predicate<'a>>, Memory> {
    let mut predicates = Vec::new(alloc);
    let step = triples.len() / SAMPLES + 1;
    for triple in triples.iter().step_by(step) {
        note(&mut predicates, triple)?;
    }
    Ok(predicates)
}

// Notes a triple's predicate, and that its object is one of those beside it.
fn note<'a>(predicates: &mut Vec<Predicate<'a>>, triple: &'a Triple) -> Result<(), Memory> {
    let text = text_of(&triple.object);
    let place = place_among(predicates.as_slice(), &triple.predicate);
    if place < predicates.len() {
        let met = predicates[place];
        if *met.iri == triple.predicate {
            predicates[place] = Predicate {
                iri: met.iri,
                front: &met.front[..alike(met.front, text)],
            };
            return Ok(());
        }
    }
    let new = Predicate {
        iri: &triple.predicate,
        front: text,
    };
    predicates.insert(place, new)?;
    Ok(())
}

// Where a predicate stands among those in their order, or would.
fn place_among(predicates: &[Predicate<'_>], iri: &Iri) -> usize
    ensures { result ≤ length predicates.now }
{
    predicates.partition_point(|met| comes_before(met, iri))
}

fn comes_before(met: &Predicate<'_>, iri: &Iri) -> bool {
    met.iri.cmp(iri) == Ordering::Less
}

// How many bytes are the same at the beginnings of two texts.
fn alike(text: &[u8], other: &[u8]) -> usize
    ensures { result ≤ length text.now }
{
    for place in 0..text.len() {
        if place >= other.len() || text[place] != other[place] {
            return place;
        }
    }
    text.len()
}

// A predicate without a number comes before the one that stands at its place. There the terms decide, as they do for an object whose
// text begins otherwise.
fn rank(predicates: &[Predicate<'_>], triple: &Triple, place: usize) -> Ranked
    ensures { result.place ≡ place }
{
    let predicate = place_among(predicates, &triple.predicate);
    let (object, rest) = match known(predicates, predicate, &triple.predicate) {
        None => (0, place as u64),
        Some(met) => numbers(&triple.object, met.front, place),
    };
    Ranked {
        predicate,
        object,
        rest,
        place,
    }
}

// What stands at a place, where it is the predicate.
fn known<'a>(predicates: &[Predicate<'a>], place: usize, iri: &Iri) -> Option<Predicate<'a>> {
    if place < predicates.len() {
        let met = predicates[place];
        if *met.iri == *iri {
            return Some(met);
        }
    }
    None
}

// Two numbers for an object. The first is never 0, and the lesser of two terms has no greater one. Where two terms that aren't the
// same have the same first one, the second mostly tells them apart.
fn numbers(term: &Term, front: &[u8], place: usize) -> (u64, u64) {
    let text = text_of(term);
    let common = alike(front, text);
    let above = kind(term).wrapping_mul(ABOVE_BYTES);
    if common == front.len() {
        (
            above.wrapping_add(bytes_from(text, common)),
            rest(term, common.wrapping_add(BYTES)),
        )
    } else if byte_at(text, common) < byte_at(front, common) {
        (above, place as u64)
    } else {
        (above.wrapping_add(ABOVE_BYTES - 1), place as u64)
    }
}

// Some bytes of a text from a place on, as one number.
fn bytes_from(text: &[u8], start: usize) -> u64 {
    let mut bytes: u64 = 0;
    for behind in 0..BYTES {
        let byte = byte_at(text, start.wrapping_add(behind));
        bytes = bytes.wrapping_mul(256).wrapping_add(byte);
    }
    bytes
}

fn kind(term: &Term) -> u64 {
    match term {
        Term::Iri(_) => 1,
        Term::Literal(_) => 2,
    }
}

// A byte of a text, or 0 behind its end.
fn byte_at(text: &[u8], place: usize) -> u64 {
    if place < text.len() {
        u64::from(text[place])
    } else {
        0
    }
}

// A hash of a term, without the bytes of its text in front of a place. Equal terms have equal ones.
fn rest(term: &Term, start: usize) -> u64 {
    match term {
        Term::Iri(iri) => hash(0, iri.text().as_bytes(), start),
        Term::Literal(literal) => {
            let datatype = literal.datatype().text().len() as u64;
            let tag = hash(datatype, literal.tag().as_bytes(), 0);
            hash(tag, literal.form().as_bytes(), start)
        }
    }
}

// A hash with a text's length and its bytes from a place on.
fn hash(before: u64, text: &[u8], start: usize) -> u64 {
    let mut mixed = before.wrapping_mul(FACTOR).wrapping_add(text.len() as u64);
    for place in start..text.len() {
        mixed = (mixed ^ u64::from(text[place])).wrapping_mul(FACTOR);
    }
    mixed
}

fn text_of(term: &Term) -> &[u8] {
    match term {
        Term::Iri(iri) => iri.text().as_bytes(),
        Term::Literal(literal) => literal.form().as_bytes(),
    }
}
