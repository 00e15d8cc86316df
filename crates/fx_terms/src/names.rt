//! Names of variables.
ghost use Rattle.std.specs.Prelude.{◌≡◌, IfOk, Ok};
ghost use Rattle.std.specs.Str.{chars};
ghost use Rattle.std.specs.List.{list_all};
ghost use Rattle.fx_terms.specs.Names as spec;
ghost use Rattle.fx_terms.specs.Answers.{AnswersName};

use crate::allocation::Memory;
use std::alloc::{AllocError, Global};
use std::cmp::Ordering;
use std::hash::{Hash, Hasher};
use std::marker::Model;
use std::sync::ArcStr;

/// Why a text names no variable.
#[derive(Clone, Copy, Debug, PartialEq, Eq)]
pub enum NameError {
    /// It is not a VARNAME.
    BadName,
    /// Memory ran out.
    Memory,
}

impl From<AllocError> for NameError {
    ghost use Rattle.std.specs.Prelude.{◌≡◌};
    ghost use Rattle.fx_terms.specs.declared.names.NameError.TheVariants.{Memory};

    ghost from_gives = { λ _ e. e ≡ Memory };

    fn from(_error: AllocError) -> NameError {
        NameError::Memory
    }
}

/// A variable's name, without its `?` or `$` (VARNAME of SPARQL 1.1 section 19.8). Contracts see the bytes of its text.
#[derive(Drop)]
pub struct Name {
    text: ArcStr,
}

impl Model for Name {
    ghost use Rattle.std.specs.Prelude.{List, ℕ};
    ghost use Rattle.std.specs.Arc.{arc_str_bytes};

    ghost Value = { List ℕ };

    ghost view = { λ n. arc_str_bytes n.text };

    ghost use Rattle.fx_terms.specs.Names.{IsName};

    ghost invariant = { λ n. IsName (arc_str_bytes n.text) };
}

impl Name {
    /// The name that a text is. `BadName` comes exactly where the text is not a VARNAME.
    pub fn read(alloc: Global, text: &str) -> Result<Name, NameError>
        ensures { AnswersName result (spec.read_name text.now) }
    {
        if !is_name(text) {
            return Err(NameError::BadName);
        }
        Ok(Name {
            text: ArcStr::from_str(alloc, text)?,
        })
    }

    /// The name that a text is, where it is known to be one.
    pub fn known(alloc: Global, text: &str) -> Result<Name, Memory>
        requires { spec.read_name text.now ≡ Ok text.now }
        ensures { IfOk result (λ name. name ≡ text.now) }
    {
        Ok(Name {
            text: ArcStr::from_str(alloc, text)?,
        })
    }

    /// The text, as it was read.
    pub fn text(&self) -> &str
        ensures value { result.now ≡ self.now }
        ensures valid { spec.IsName self.now }
    {
        self.text.as_str()
    }

    /// An equal name, which shares the text.
    pub fn copy(&self) -> Result<Name, Memory>
        ensures { IfOk result (λ copy. copy ≡ self.now) }
    {
        Ok(Name {
            text: self.text.clone()?,
        })
    }
}

fn is_latin(c: char) -> bool
    ensures { result ≡ spec.is_latin c }
{
    matches!(c, 'A'..='Z' | 'a'..='z' | '\u{C0}'..='\u{D6}' | '\u{D8}'..='\u{F6}' | '\u{F8}'..='\u{2FF}')
}

fn is_below_surrogates(c: char) -> bool
    ensures { result ≡ spec.is_below_surrogates c }
{
    matches!(c, '\u{370}'..='\u{37D}' | '\u{37F}'..='\u{1FFF}' | '\u{200C}'..='\u{200D}' | '\u{2070}'..='\u{218F}'
        | '\u{2C00}'..='\u{2FEF}' | '\u{3001}'..='\u{D7FF}')
}

fn is_above_surrogates(c: char) -> bool
    ensures { result ≡ spec.is_above_surrogates c }
{
    matches!(c, '\u{F900}'..='\u{FDCF}' | '\u{FDF0}'..='\u{FFFD}' | '\u{10000}'..='\u{EFFFF}')
}

/// Whether a character is of PN_CHARS_BASE (SPARQL 1.1 section 19.8).
pub fn is_base_char(c: char) -> bool
    ensures { result ≡ spec.is_base_char c }
{
    is_latin(c) || is_below_surrogates(c) || is_above_surrogates(c)
}

/// Whether a character is of PN_CHARS_U or a digit.
pub fn is_name_start(c: char) -> bool
    ensures { result ≡ spec.is_name_start c }
{
    is_base_char(c) || c == '_' || c.is_ascii_digit()
}

/// Whether a character may stand in a VARNAME behind its first.
pub fn is_name_char(c: char) -> bool
    ensures { result ≡ spec.is_name_char c }
{
    is_name_start(c)
        || c == '\u{B7}'
        || matches!(c, '\u{300}'..='\u{36F}' | '\u{203F}'..='\u{2040}')
}

fn is_name(text: &str) -> bool
    ensures { result ≡ spec.is_name (chars text.now) }
{
    starts_as_name(text) && has_name_chars(text)
}

fn starts_as_name(text: &str) -> bool
    ensures { result ≡ spec.starts_as_name (chars text.now) }
{
    match text.chars().next() {
        None => false,
        Some(first) => is_name_start(first),
    }
}

fn has_name_chars(text: &str) -> bool
    ensures { result ≡ list_all spec.is_name_char (chars text.now) }
{
    text.chars().all(is_name_char)
}

impl PartialEq for Name {
    ghost use Rattle.std.specs.Ordering.{eq_by_cmp};
    ghost use Rattle.std.specs.Cmp.{partial_equiv_from_equiv};
    ghost use Rattle.std.proofs.lemmas.Cmp.{eq_by_cmp_equiv};
    ghost use Rattle.fx_terms.specs.Texts.{text_cmp, texts_total};

    ghost eq = { eq_by_cmp text_cmp };

    ghost laws = { partial_equiv_from_equiv (eq_by_cmp_equiv texts_total) };

    fn eq(&self, other: &Name) -> bool {
        self.cmp(other) == Ordering::Equal
    }
}

impl Eq for Name {
    ghost use Rattle.std.proofs.lemmas.Cmp.{eq_by_cmp_equiv};
    ghost use Rattle.fx_terms.specs.Texts.{texts_total};

    ghost laws = { eq_by_cmp_equiv texts_total };
}

impl Ord for Name {
    ghost use Rattle.std.proofs.Common.{refl};
    ghost use Rattle.fx_terms.specs.Texts.{text_cmp, texts_total};

    ghost cmp = { text_cmp };

    ghost total = { texts_total };

    ghost matches_partial_cmp = { λ x y. refl };

    ghost matches_eq = { λ x y. refl };

    fn cmp(&self, other: &Name) -> Ordering {
        self.text.cmp(&other.text)
    }
}

impl PartialOrd for Name {
    ghost use Rattle.std.proofs.Common.{refl};
    ghost use Rattle.std.specs.Ordering.{as_partial_cmp};
    ghost use Rattle.std.specs.Cmp.{partial_order_from_agreeing_total};
    ghost use Rattle.fx_terms.specs.Texts.{text_cmp, texts_total};

    ghost partial_cmp = { as_partial_cmp text_cmp };

    ghost laws = { partial_order_from_agreeing_total text_cmp texts_total (λ x y. refl) (λ x y. refl) };

    fn partial_cmp(&self, other: &Name) -> Option<Ordering> {
        Some(self.cmp(other))
    }
}

impl Hash for Name {
    ghost use Rattle.std.proofs.Common.{ap};
    ghost use Rattle.std.specs.Hash as fed;
    ghost use Rattle.fx_terms.specs.Texts.{one_text};

    ghost hash_input = { fed.str };

    ghost respects_eq = { λ x y h. ap fed.str (one_text x y h) };

    fn hash<H: Hasher>(&self, state: &mut H) {
        self.text.hash(state);
    }
}
