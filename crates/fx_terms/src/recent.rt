//! IRIs that were read lately.
ghost use Rattle.std.specs.Prelude.{◌≡◌, IfOk, IfSome, Ok};
ghost use Rattle.fx_terms.specs.Iris as spec;
ghost use Rattle.fx_terms.specs.Answers.{AnswersTerm};

use crate::allocation::Memory;
use crate::iris::{Iri, TermError};
use std::alloc::Global;

// The fewest and the most places.
const FEWEST: usize = 1 << 10;

const MOST: usize = 1 << 20;

// How many bytes of a document there are for each place.
const BYTES: usize = 256;

// The factor of the FNV hash in 64 bits.
const FACTOR: u64 = 1_099_511_628_211;

// How many bytes at the end of a text say where it is kept: there the IRIs of one data set differ most.
const TAIL: usize = 8;

/// IRIs that were read lately: one that is read again shares its text.
///
/// Each is kept in the place that its text gives, until another comes there. So what many triples have, as predicates, classes
/// and datatypes, has one text for nearly all of them, and a subject has few.
#[derive(Drop)]
pub struct RecentIris {
    kept: Vec<Option<Iri>>,
}

impl RecentIris {
    /// None yet, with a place for each 256 bytes of a document of this length: from 1,024 places to 1,048,576.
    pub fn of_document(alloc: Global, length: usize) -> Result<RecentIris, Memory> {
        let places = (length / BYTES).max(FEWEST).min(MOST);
        let mut kept = Vec::with_capacity(alloc, places)?;
        for _ in 0..places {
            kept.push(None)?;
        }
        Ok(RecentIris { kept })
    }

    /// The IRI that a text is. It refuses what `Iri::read` refuses, in the same way.
    pub fn read(&mut self, alloc: Global, text: &str) -> Result<Iri, TermError>
        ensures { AnswersTerm result (spec.read_iri text.now) }
    {
        let place = place_of(text, self.kept.len());
        match self.kept_at(place, text) {
            Some(iri) => Ok(iri.copy()?),
            None => self.read_first(alloc, text, place),
        }
    }

    /// The IRI that a text is, where it is known to be one.
    pub fn known(&mut self, alloc: Global, text: &str) -> Result<Iri, Memory>
        requires { spec.read_iri text.now ≡ Ok text.now }
        ensures { IfOk result (λ iri. iri ≡ text.now) }
    {
        match self.read(alloc, text) {
            Ok(iri) => Ok(iri),
            Err(_) => Err(Memory),
        }
    }

    // What is kept at a place, where it has this text.
    fn kept_at(&self, place: usize, text: &str) -> Option<&Iri>
        ensures { IfSome result (λ iri. spec.read_iri text.now ≡ Ok iri.now) }
    {
        match self.kept.get(place) {
            Some(Some(iri)) if iri.text() == text => Some(iri),
            _ => None,
        }
    }

    // The IRI that a text is, which is kept at this place.
    fn read_first(&mut self, alloc: Global, text: &str, place: usize) -> Result<Iri, TermError>
        ensures { AnswersTerm result (spec.read_iri text.now) }
    {
        let iri = Iri::read(alloc, text)?;
        let copy = iri.copy()?;
        if place < self.kept.len() {
            self.kept[place] = Some(copy);
        }
        Ok(iri)
    }
}

// Where a text is kept among so many places, by its length and its last bytes.
fn place_of(text: &str, places: usize) -> usize {
    if places == 0 {
        return 0;
    }
    let bytes = text.as_bytes();
    let mut mixed = bytes.len() as u64;
    for place in bytes.len().saturating_sub(TAIL)..bytes.len() {
        mixed = (mixed ^ u64::from(bytes[place])).wrapping_mul(FACTOR);
    }
    (mixed % places as u64) as usize
}
