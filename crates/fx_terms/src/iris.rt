//! IRIs.
ghost use Rattle.std.specs.Prelude.{◌≡◌, ◌<◌, ◌^◌, IfOk, IfSome, Ok, position};
ghost use Rattle.fx_terms.specs.Iris as spec;
ghost use Rattle.fx_terms.specs.Answers.{AnswersTerm};

use crate::allocation::Memory;
use std::alloc::{AllocError, Global};
use std::cmp::Ordering;
use std::marker::Model;
use std::sync::ArcStr;

/// Why a text is no IRI.
#[derive(Clone, Copy, Debug, PartialEq, Eq)]
pub enum TermError {
    /// It has no forbidden character, and does not begin with a scheme.
    Relative,
    /// A character that no IRI has stands in it, the first one at this byte place.
    BadCharacter { place: u64 },
    /// Memory ran out.
    Memory,
}

impl From<AllocError> for TermError {
    ghost use Rattle.std.specs.Prelude.{◌≡◌};
    ghost use Rattle.fx_terms.specs.declared.iris.TermError.TheVariants.{Memory};

    ghost from_gives = { λ _ e. e ≡ Memory };

    fn from(_error: AllocError) -> TermError {
        TermError::Memory
    }
}

impl From<Memory> for TermError {
    ghost use Rattle.std.specs.Prelude.{◌≡◌};
    ghost use Rattle.fx_terms.specs.declared.iris.TermError.TheVariants.{Memory as NoMemory};

    ghost from_gives = { λ _ e. e ≡ NoMemory };

    fn from(_error: Memory) -> TermError {
        TermError::Memory
    }
}

/// An absolute IRI (RFC 3987, in this project's profile). Contracts see the bytes of its text.
#[derive(Debug, Drop)]
pub struct Iri {
    text: ArcStr,
}

impl Model for Iri {
    ghost use Rattle.std.specs.Prelude.{List, ℕ};
    ghost use Rattle.std.specs.Arc.{arc_str_bytes};

    ghost Value = { List ℕ };

    ghost view = { λ i. arc_str_bytes i.text };

    ghost use Rattle.fx_terms.specs.Iris.{IsIri};

    ghost invariant = { λ i. IsIri (arc_str_bytes i.text) };
}

impl Iri {
    /// The IRI that a text is.
    ///
    /// `BadCharacter` comes exactly where one of `<>"{}|^`, backquote, backslash and U+0000 to U+0020 stands in the
    /// text, with the byte place of the first. `Relative` comes exactly where none stands, and the text does not begin
    /// with an ASCII letter, then letters, digits, `+`, `-` or `.`, then `:`.
    pub fn read(alloc: Global, text: &str) -> Result<Iri, TermError>
        ensures { AnswersTerm result (spec.read_iri text.now) }
    {
        if let Some(place) = first_forbidden(text.as_bytes()) {
            return Err(TermError::BadCharacter {
                place: place as u64,
            });
        }
        if !has_scheme(text.as_bytes()) {
            return Err(TermError::Relative);
        }
        Ok(Iri {
            text: ArcStr::from_str(alloc, text)?,
        })
    }

    /// The IRI that a text is, where it is known to be one.
    pub fn known(alloc: Global, text: &str) -> Result<Iri, Memory>
        requires { spec.read_iri text.now ≡ Ok text.now }
        ensures value { IfOk result (λ iri. iri ≡ text.now) }
        ensures valid { IfOk result spec.IsIri }
    {
        Ok(Iri {
            text: ArcStr::from_str(alloc, text)?,
        })
    }

    /// The text, as it was read.
    pub fn text(&self) -> &str
        ensures value { result.now ≡ self.now }
        ensures valid { spec.IsIri self.now }
    {
        self.text.as_str()
    }

    /// An equal IRI, which shares the text.
    pub fn copy(&self) -> Result<Iri, Memory>
        ensures { IfOk result (λ copy. copy ≡ self.now) }
    {
        Ok(Iri {
            text: self.text.clone()?,
        })
    }
}

/// Whether no IRI has the character of a code: one of `<>"{}|^`, backquote, backslash, and U+0000 to U+0020.
pub fn is_forbidden(code: u32) -> bool
    ensures { result ≡ spec.is_forbidden code }
{
    code <= 32 || matches!(code, 60 | 62 | 34 | 123 | 125 | 124 | 94 | 96 | 92)
}

fn first_forbidden(bytes: &[u8]) -> Option<usize>
    ensures first { result ≡ position spec.is_forbidden bytes.now }
    ensures small { IfSome result (λ place. place < 2 ^ 64) }
{
    bytes.iter().position(|b| is_forbidden(*b as u32))
}

fn is_scheme_byte(b: u8) -> bool
    ensures { result ≡ spec.is_scheme_byte b }
{
    b.is_ascii_alphanumeric() || b == b'+' || b == b'-' || b == b'.'
}

fn scheme_ends(bytes: &[u8]) -> bool
    ensures { result ≡ spec.scheme_ends bytes.now }
{
    for b in bytes {
        if *b == b':' {
            return true;
        }
        if !is_scheme_byte(*b) {
            return false;
        }
    }
    false
}

fn has_scheme(bytes: &[u8]) -> bool
    ensures { result ≡ spec.has_scheme bytes.now }
{
    match bytes {
        [] => false,
        [first, rest @ ..] => first.is_ascii_alphabetic() && scheme_ends(rest),
    }
}

impl PartialEq for Iri {
    ghost use Rattle.std.specs.Ordering.{eq_by_cmp};
    ghost use Rattle.std.specs.Cmp.{partial_equiv_from_equiv};
    ghost use Rattle.std.proofs.lemmas.Cmp.{eq_by_cmp_equiv};
    ghost use Rattle.fx_terms.specs.Texts.{text_cmp, texts_total};

    ghost eq = { eq_by_cmp text_cmp };

    ghost laws = { partial_equiv_from_equiv (eq_by_cmp_equiv texts_total) };

    fn eq(&self, other: &Iri) -> bool {
        self.cmp(other) == Ordering::Equal
    }
}

impl Eq for Iri {
    ghost use Rattle.std.proofs.lemmas.Cmp.{eq_by_cmp_equiv};
    ghost use Rattle.fx_terms.specs.Texts.{texts_total};

    ghost laws = { eq_by_cmp_equiv texts_total };
}

impl Ord for Iri {
    ghost use Rattle.std.proofs.Common.{refl};
    ghost use Rattle.fx_terms.specs.Texts.{text_cmp, texts_total};

    ghost cmp = { text_cmp };

    ghost total = { texts_total };

    ghost matches_partial_cmp = { λ x y. refl };

    ghost matches_eq = { λ x y. refl };

    fn cmp(&self, other: &Iri) -> Ordering {
        self.text.cmp(&other.text)
    }
}

impl PartialOrd for Iri {
    ghost use Rattle.std.proofs.Common.{refl};
    ghost use Rattle.std.specs.Ordering.{as_partial_cmp};
    ghost use Rattle.std.specs.Cmp.{partial_order_from_agreeing_total};
    ghost use Rattle.fx_terms.specs.Texts.{text_cmp, texts_total};

    ghost partial_cmp = { as_partial_cmp text_cmp };

    ghost laws = { partial_order_from_agreeing_total text_cmp texts_total (λ x y. refl) (λ x y. refl) };

    fn partial_cmp(&self, other: &Iri) -> Option<Ordering> {
        Some(self.cmp(other))
    }
}
