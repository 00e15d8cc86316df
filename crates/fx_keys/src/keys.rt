//! Keys of patterns, under which answers to ASK are remembered.
ghost use Rattle.std.specs.Prelude.{◌≡◌, ◌++◌, IfOk, OnOk, Ok};
ghost use Rattle.fx_algebra.specs.Scopes.{once as once_each, part_names, pattern_names};
ghost use Rattle.fx_keys.specs.Keys as spec;
ghost use Rattle.fx_keys.specs.Probes.{key_of};

use fx_algebra::scopes::once;
use fx_terms::{Boxed, Memory, Name, Pattern, PatternTerm, Term};
use std::alloc::Global;
use std::hash::{Hash, Hasher};

/// A pattern as it is asked for: patterns that differ in the names of their variables alone have one key.
#[derive(Drop)]
pub struct AskKey {
    pub pattern: Boxed<Pattern>,
}

impl AskKey {
    /// The key of a pattern: its variables are named `v0`, `v1`, `v2` by first occurrence in subject, predicate, object.
    pub fn of(alloc: Global, pattern: &Pattern) -> Result<AskKey, Memory>
        ensures { IfOk result (λ key. key ≡ key_of pattern.now) }
    {
        let names = variables(alloc, pattern)?;
        Ok(AskKey {
            pattern: renamed(alloc, names.as_slice(), pattern)?,
        })
    }

    /// An equal key, which shares the texts.
    pub fn copy(&self, alloc: Global) -> Result<AskKey, Memory>
        ensures { IfOk result (λ copy. copy ≡ self.now) }
    {
        Ok(AskKey {
            pattern: boxed(alloc, self.pattern.get().copy())?,
        })
    }
}

// A pattern in a box, where there is one.
fn boxed(alloc: Global, pattern: Result<Pattern, Memory>) -> Result<Boxed<Pattern>, Memory>
    ensures { IfOk result (λ boxed. pattern ≡ Ok boxed) }
{
    match pattern {
        Ok(pattern) => Ok(Boxed::new(alloc, pattern)?),
        Err(memory) => Err(memory),
    }
}

// The variables of a pattern, each once, in the order of subject, predicate, object.
fn variables(alloc: Global, pattern: &Pattern) -> Result<Vec<Name>, Memory>
    ensures { IfOk result (λ names. names.items ≡ once_each (pattern_names pattern.now)) }
{
    let mut names = Vec::new(alloc);
    push_name(&mut names, &pattern.subject)?;
    push_name(&mut names, &pattern.predicate)?;
    push_name(&mut names, &pattern.object)?;
    once(alloc, names.as_slice())
}

fn push_name(names: &mut Vec<Name>, part: &PatternTerm) -> Result<(), Memory>
    ensures { OnOk result (names.new.items ≡ names.old.items ++ part_names part.now) }
{
    if let PatternTerm::Variable(name) = part {
        names.push(name.copy()?)?;
    }
    Ok(())
}

// The pattern with its variables numbered by their places among names.
fn renamed(alloc: Global, names: &[Name], pattern: &Pattern) -> Result<Boxed<Pattern>, Memory>
    ensures { IfOk result (λ renamed. renamed ≡ spec.renamed (spec.name_among names.now) pattern.now) }
{
    let renamed = Pattern {
        subject: renamed_part(alloc, names, &pattern.subject)?,
        predicate: renamed_part(alloc, names, &pattern.predicate)?,
        object: renamed_part(alloc, names, &pattern.object)?,
    };
    Ok(Boxed::new(alloc, renamed)?)
}

fn renamed_part(alloc: Global, names: &[Name], part: &PatternTerm) -> Result<PatternTerm, Memory>
    ensures { IfOk result (λ renamed. renamed ≡ spec.renamed_part (spec.name_among names.now) part.now) }
{
    match part {
        PatternTerm::Variable(name) => Ok(PatternTerm::Variable(numbered(
            alloc,
            place(names, name),
        )?)),
        PatternTerm::Constant(term) => Ok(PatternTerm::Constant(term.copy()?)),
    }
}

// How many names stand before the first that is this one.
fn place(names: &[Name], name: &Name) -> usize
    ensures { result ≡ spec.place names.now name.now }
{
    for (before, other) in names.iter().enumerate() {
        if *other == *name {
            return before;
        }
    }
    names.len()
}

// The name of a number.
fn numbered(alloc: Global, number: usize) -> Result<Name, Memory>
    ensures { IfOk result (λ name. name ≡ spec.numbered number) }
{
    match number {
        0 => Name::known(alloc, "v0"),
        1 => Name::known(alloc, "v1"),
        _ => Name::known(alloc, "v2"),
    }
}

// The text that tells most parts apart.
fn text_of(part: &PatternTerm) -> &str
    ensures { result.now ≡ spec.text_of part.now }
{
    match part {
        PatternTerm::Variable(name) => name.text(),
        PatternTerm::Constant(Term::Iri(iri)) => iri.text(),
        PatternTerm::Constant(Term::Literal(literal)) => literal.form(),
    }
}

impl PartialEq for AskKey {
    ghost use Rattle.std.specs.Cmp.{decided, partial_equiv_from_equiv};
    ghost use Rattle.fx_keys.specs.Probes.{same_key, keys_decide};

    ghost eq = { same_key };

    ghost laws = { partial_equiv_from_equiv (decided same_key keys_decide) };

    fn eq(&self, other: &AskKey) -> bool {
        let (pattern, another) = (self.pattern.get(), other.pattern.get());
        same_part(&pattern.subject, &another.subject)
            && same_part(&pattern.predicate, &another.predicate)
            && same_part(&pattern.object, &another.object)
    }
}

impl Eq for AskKey {
    ghost use Rattle.std.specs.Cmp.{decided};
    ghost use Rattle.fx_keys.specs.Probes.{same_key, keys_decide};

    ghost laws = { decided same_key keys_decide };
}

fn same_part(part: &PatternTerm, other: &PatternTerm) -> bool
    ensures { result ≡ spec.same_part part.now other.now }
{
    match (part, other) {
        (PatternTerm::Variable(a), PatternTerm::Variable(b)) => *a == *b,
        (PatternTerm::Variable(_), PatternTerm::Constant(_)) => false,
        (PatternTerm::Constant(_), PatternTerm::Variable(_)) => false,
        (PatternTerm::Constant(a), PatternTerm::Constant(b)) => *a == *b,
    }
}

impl Hash for AskKey {
    ghost use Rattle.std.proofs.Common.{ap};
    ghost use Rattle.fx_keys.specs.Probes.{key_writes, keys_decide};

    ghost hash_input = { key_writes };

    ghost respects_eq = { λ x y h. ap key_writes ((keys_decide x y).0 h) };

    fn hash<H: Hasher>(&self, state: &mut H) {
        let pattern = self.pattern.get();
        text_of(&pattern.subject).hash(state);
        text_of(&pattern.predicate).hash(state);
        text_of(&pattern.object).hash(state);
    }
}
