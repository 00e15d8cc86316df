//! Words, each behind a space.
ghost use Rattle.std.specs.Prelude.{◌≡◌, ◌≢◌, ◌++◌, ◌∷◌, ℕ, List, IfOk, OnOk, map, string_bytes};
ghost use Rattle.std.specs.Fmt.{decimal};
ghost use Rattle.fx_algebra.specs.Printed as spec;
ghost use Rattle.fx_terms.specs.Writing.{written_term, written_iri};

use fx_terms::{Iri, Memory, Name, PatternTerm, Term, write_iri, write_term};
use itoa::Buffer;
use std::alloc::Global;

/// A keyword or a mark.
pub fn push_fixed(text: &mut String, word: &str) -> Result<(), Memory>
    ensures { OnOk result (string_bytes text.new ≡ string_bytes text.old ++ (32 ∷ word.now)) }
{
    text.push(' ')?;
    text.push_str(word)?;
    Ok(())
}

/// A variable: `?` and its name.
pub fn push_variable(text: &mut String, name: &Name) -> Result<(), Memory>
    ensures { OnOk result (string_bytes text.new ≡ string_bytes text.old ++ (32 ∷ 63 ∷ name.now)) }
{
    text.push_str(" ?")?;
    text.push_str(name.text())?;
    Ok(())
}

/// A term.
pub fn push_term(text: &mut String, term: &Term) -> Result<(), Memory>
    ensures { OnOk result (string_bytes text.new ≡ string_bytes text.old ++ (32 ∷ written_term term.now)) }
{
    text.push(' ')?;
    write_term(text, term)
}

/// An IRI.
pub(crate) fn push_iri(text: &mut String, iri: &Iri) -> Result<(), Memory>
    ensures { OnOk result (string_bytes text.new ≡ string_bytes text.old ++ (32 ∷ written_iri iri.now)) }
{
    text.push(' ')?;
    write_iri(text, iri)
}

/// A number.
pub(crate) fn push_number(text: &mut String, number: u64) -> Result<(), Memory>
    ensures { OnOk result (string_bytes text.new ≡ string_bytes text.old ++ (32 ∷ decimal number)) }
{
    let mut buffer = Buffer::new();
    text.push(' ')?;
    text.push_str(buffer.format(number))?;
    Ok(())
}

/// A part of a triple.
pub fn push_part(text: &mut String, part: &PatternTerm) -> Result<(), Memory>
    ensures { OnOk result (string_bytes text.new ≡ string_bytes text.old ++ (32 ∷ spec.spelling (spec.part_word part.now))) }
{
    match part {
        PatternTerm::Variable(name) => push_variable(text, name),
        PatternTerm::Constant(term) => push_term(text, term),
    }
}

/// Variables, side by side.
pub fn push_variables(text: &mut String, names: &[Name]) -> Result<(), Memory>
    ensures { OnOk result (string_bytes text.new ≡ string_bytes text.old ++ spec.spaced (map (λ name. spec.variable name) names.now)) }
{
    for name in names {
        push_variable(text, name)?;
    }
    Ok(())
}

/// A text without the space that it begins with, if it begins with one: of words that stand each behind a space, the words with
/// one space between.
pub fn without_the_first_space(alloc: Global, text: String) -> Result<String, Memory>
    ensures words { (words : List spec.Word) → string_bytes text ≡ spec.spaced words → IfOk result (λ joined. string_bytes joined ≡ spec.joined words) }
    ensures behind { (rest : List ℕ) → string_bytes text ≡ 32 ∷ rest → IfOk result (λ bare. string_bytes bare ≡ rest) }
    ensures same { ((rest : List ℕ) → string_bytes text ≢ 32 ∷ rest) → IfOk result (λ bare. string_bytes bare ≡ string_bytes text) }
{
    match text.strip_prefix(' ') {
        Some(rest) => Ok(String::from_str(alloc, rest)?),
        None => Ok(text),
    }
}
