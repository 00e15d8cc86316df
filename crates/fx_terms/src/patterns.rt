//! Triple patterns.
ghost use Rattle.std.specs.Prelude.{◌≡◌, IfOk};

use crate::allocation::Memory;
use crate::names::Name;
use crate::terms::Term;

/// A part of a triple pattern.
#[derive(Drop, PartialEq, Eq)]
pub enum PatternTerm {
    Variable(Name),
    Constant(Term),
}

impl PatternTerm {
    /// An equal part, which shares the texts.
    pub fn copy(&self) -> Result<PatternTerm, Memory>
        ensures { IfOk result (λ copy. copy ≡ self.now) }
    {
        match self {
            PatternTerm::Variable(name) => Ok(PatternTerm::Variable(name.copy()?)),
            PatternTerm::Constant(term) => Ok(PatternTerm::Constant(term.copy()?)),
        }
    }
}

/// A triple pattern (SPARQL 1.1 section 18.1.5). A literal may stand in any place; as a subject or predicate it fits nothing.
#[derive(Drop, PartialEq, Eq)]
pub struct Pattern {
    pub subject: PatternTerm,
    pub predicate: PatternTerm,
    pub object: PatternTerm,
}

impl Pattern {
    /// An equal pattern, which shares the texts.
    pub fn copy(&self) -> Result<Pattern, Memory>
        ensures { IfOk result (λ copy. copy ≡ self.now) }
    {
        Ok(Pattern {
            subject: self.subject.copy()?,
            predicate: self.predicate.copy()?,
            object: self.object.copy()?,
        })
    }
}
