//! Literals.
ghost use Rattle.std.specs.Prelude.{◌≡◌, IfOk, string_bytes};
ghost use Rattle.std.specs.List.{list_all};
ghost use Rattle.fx_terms.specs.Iris.{is_letter};
ghost use Rattle.fx_terms.specs.Answers.{AnswersLiteral};
ghost use Rattle.fx_terms.specs.Literals as spec;

use crate::allocation::Memory;
use crate::datatypes::{LANG_STRING, XSD_STRING};
use crate::iris::Iri;
use std::alloc::{AllocError, Global};
use std::cmp::Ordering;
use std::marker::Model;
use std::sync::Arc;

/// Why a literal can't be made.
#[derive(Clone, Copy, Debug, PartialEq, Eq)]
pub enum LiteralError {
    /// Its datatype is rdf:langString, which needs a language tag.
    NeedsTag,
    /// The text is not a language tag.
    BadTag,
    /// Memory ran out.
    Memory,
}

impl From<AllocError> for LiteralError {
    ghost use Rattle.std.specs.Prelude.{◌≡◌};
    ghost use Rattle.fx_terms.specs.declared.literals.LiteralError.TheVariants.{Memory};

    ghost from_gives = { λ _ e. e ≡ Memory };

    fn from(_error: AllocError) -> LiteralError {
        LiteralError::Memory
    }
}

impl From<Memory> for LiteralError {
    ghost use Rattle.std.specs.Prelude.{◌≡◌};
    ghost use Rattle.fx_terms.specs.declared.literals.LiteralError.TheVariants.{Memory as NoMemory};

    ghost from_gives = { λ _ e. e ≡ NoMemory };

    fn from(_error: Memory) -> LiteralError {
        LiteralError::Memory
    }
}

/// The parts of a literal, as they lie behind it.
#[derive(Drop)]
struct Parts {
    form: String,
    datatype: Iri,
    tag: String,
}

/// A literal (RDF 1.1 Concepts 3.3): a lexical form, a datatype, and a language tag exactly where the datatype is
/// rdf:langString. Contracts see the bytes of these parts, and a literal without a tag as one with the empty tag.
#[derive(Drop)]
pub struct Literal {
    parts: Arc<Parts>,
}

impl Model for Literal {
    ghost use Rattle.std.specs.Prelude.{string_bytes};
    ghost use Rattle.fx_terms.specs.Literals.{LiteralParts, IsLiteral};

    ghost Value = { LiteralParts };

    ghost view = { λ l. record { form = string_bytes l.parts.value.form; datatype = l.parts.value.datatype; tag = string_bytes l.parts.value.tag } };

    ghost invariant = { λ l. IsLiteral (record { form = string_bytes l.parts.value.form; datatype = l.parts.value.datatype; tag = string_bytes l.parts.value.tag }) };
}

impl Literal {
    /// The literal of these parts.
    fn of(alloc: Global, form: String, datatype: Iri, tag: String) -> Result<Literal, Memory>
        requires { spec.IsLiteral (record { form = string_bytes form; datatype = datatype; tag = string_bytes tag }) }
        ensures { IfOk result (λ literal. literal ≡ record { form = string_bytes form; datatype = datatype; tag = string_bytes tag }) }
    {
        let parts = Arc::new(
            alloc,
            Parts {
                form,
                datatype,
                tag,
            },
        )?;
        Ok(Literal { parts })
    }

    /// The literal of a form alone: its datatype is xsd:string, and it has no tag.
    pub fn plain(alloc: Global, form: &str) -> Result<Literal, Memory>
        ensures { IfOk result (λ literal. literal ≡ spec.plain form.now) }
    {
        let form = String::from_str(alloc, form)?;
        Literal::of(
            alloc,
            form,
            Iri::known(alloc, XSD_STRING)?,
            String::new(alloc),
        )
    }

    /// The literal of a form and a datatype, without a tag. `NeedsTag` comes exactly where the datatype is rdf:langString.
    pub fn typed(alloc: Global, form: &str, datatype: &Iri) -> Result<Literal, LiteralError>
        ensures { AnswersLiteral result (spec.typed form.now datatype.now) }
    {
        if datatype.text() == LANG_STRING {
            return Err(LiteralError::NeedsTag);
        }
        let form = String::from_str(alloc, form)?;
        Ok(Literal::of(alloc, form, datatype.copy()?, String::new(alloc))?)
    }

    /// The literal of a form and a language tag, which it keeps in ASCII lower case. Its datatype is rdf:langString.
    ///
    /// `BadTag` comes exactly where the tag is not ASCII letters, and then any number of groups of `-` with ASCII letters
    /// or digits.
    pub fn tagged(alloc: Global, form: &str, tag: &str) -> Result<Literal, LiteralError>
        ensures { AnswersLiteral result (spec.tagged form.now tag.now) }
    {
        if !is_tag(tag) {
            return Err(LiteralError::BadTag);
        }
        let form = String::from_str(alloc, form)?;
        let tag = tag.to_ascii_lowercase(alloc)?;
        Ok(Literal::of(alloc, form, Iri::known(alloc, LANG_STRING)?, tag)?)
    }

    /// The lexical form.
    pub fn form(&self) -> &str
        ensures { result.now ≡ self.now.form }
    {
        self.parts.form.as_str()
    }

    /// The datatype.
    pub fn datatype(&self) -> &Iri
        ensures { result.now ≡ self.now.datatype }
    {
        &self.parts.datatype
    }

    /// The language tag in lower case, or nothing where the datatype is not rdf:langString.
    pub fn tag(&self) -> &str
        ensures value { result.now ≡ self.now.tag }
        ensures fits { spec.IsLiteral self.now }
    {
        self.parts.tag.as_str()
    }

    /// An equal literal, which shares the parts.
    pub fn copy(&self) -> Result<Literal, Memory>
        ensures { IfOk result (λ copy. copy ≡ self.now) }
    {
        Ok(Literal {
            parts: self.parts.clone()?,
        })
    }
}

/// Whether a text may be a language tag: ASCII letters, and then any number of groups of `-` with ASCII letters or digits (RDF
/// 1.1 N-Triples, section 7, LANGTAG).
pub fn is_tag(tag: &str) -> bool
    ensures { result ≡ spec.is_tag tag.now }
{
    let mut parts = tag.split('-');
    match parts.next() {
        None => false,
        Some(first) => is_letters(first) && parts.all(is_letters_or_digits),
    }
}

fn is_letters(part: &str) -> bool
    ensures { result ≡ spec.is_letters part.now }
{
    !part.is_empty() && has_letters(part.as_bytes())
}

fn has_letters(part: &[u8]) -> bool
    ensures { result ≡ list_all is_letter part.now }
{
    part.iter().all(|b| b.is_ascii_alphabetic())
}

fn is_letters_or_digits(part: &str) -> bool
    ensures { result ≡ spec.is_letters_or_digits part.now }
{
    !part.is_empty() && has_letters_or_digits(part.as_bytes())
}

fn has_letters_or_digits(part: &[u8]) -> bool
    ensures { result ≡ list_all spec.is_letter_or_digit part.now }
{
    part.iter().all(|b| b.is_ascii_alphanumeric())
}

impl PartialEq for Literal {
    ghost use Rattle.std.specs.Ordering.{eq_by_cmp};
    ghost use Rattle.std.specs.Cmp.{partial_equiv_from_equiv};
    ghost use Rattle.std.proofs.lemmas.Cmp.{eq_by_cmp_equiv};
    ghost use Rattle.fx_terms.specs.Literals.{literal_cmp, literals_total};

    ghost eq = { eq_by_cmp literal_cmp };

    ghost laws = { partial_equiv_from_equiv (eq_by_cmp_equiv literals_total) };

    fn eq(&self, other: &Literal) -> bool {
        self.cmp(other) == Ordering::Equal
    }
}

impl Eq for Literal {
    ghost use Rattle.std.proofs.lemmas.Cmp.{eq_by_cmp_equiv};
    ghost use Rattle.fx_terms.specs.Literals.{literals_total};

    ghost laws = { eq_by_cmp_equiv literals_total };
}

impl Ord for Literal {
    ghost use Rattle.std.proofs.Common.{refl};
    ghost use Rattle.fx_terms.specs.Literals.{literal_cmp, literals_total};

    ghost cmp = { literal_cmp };

    ghost total = { literals_total };

    ghost matches_partial_cmp = { λ x y. refl };

    ghost matches_eq = { λ x y. refl };

    fn cmp(&self, other: &Literal) -> Ordering {
        let forms = self.form().cmp(other.form());
        if forms != Ordering::Equal {
            return forms;
        }
        let datatypes = self.datatype().cmp(other.datatype());
        if datatypes != Ordering::Equal {
            return datatypes;
        }
        self.tag().cmp(other.tag())
    }
}

impl PartialOrd for Literal {
    ghost use Rattle.std.proofs.Common.{refl};
    ghost use Rattle.std.specs.Ordering.{as_partial_cmp};
    ghost use Rattle.std.specs.Cmp.{partial_order_from_agreeing_total};
    ghost use Rattle.fx_terms.specs.Literals.{literal_cmp, literals_total};

    ghost partial_cmp = { as_partial_cmp literal_cmp };

    ghost laws = { partial_order_from_agreeing_total literal_cmp literals_total (λ x y. refl) (λ x y. refl) };

    fn partial_cmp(&self, other: &Literal) -> Option<Ordering> {
        Some(self.cmp(other))
    }
}
