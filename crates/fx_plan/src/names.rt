//! Names, each once.
ghost use Rattle.std.specs.Prelude.{◌≡◌, [], filter, fold, length, not, OnOk};
ghost use Rattle.fx_algebra.specs.BasicGraphPatterns.{variables};
ghost use Rattle.fx_algebra.specs.Scopes as spec;

use fx_terms::{Memory, Name, Pattern, PatternTerm};
use indexmap::IndexSet;
use std::alloc::Global;
use std::marker::Model;

/// Names, each once, in the order in which they were added. Contracts see the list of them.
#[derive(Drop)]
pub(crate) struct Names {
    names: IndexSet<Name>,
}

impl Model for Names {
    ghost use Rattle.std.specs.Prelude.{List, ℕ};

    ghost Value = { List (List ℕ) };

    ghost view = { λ n. n.names.keys };
}

impl Names {
    /// No names.
    pub fn new(alloc: Global) -> Names
        ensures { result ≡ [] }
    {
        Names {
            names: IndexSet::new(alloc),
        }
    }

    /// Whether a name stands among them.
    pub fn has(&self, name: &Name) -> bool
        ensures { result ≡ spec.is_among self.now name.now }
    {
        self.names.contains(name)
    }

    /// How many there are.
    pub fn len(&self) -> usize
        ensures { result ≡ length self.now }
    {
        self.names.len()
    }

    /// One more name, where they lack it.
    pub fn add(&mut self, name: Name) -> Result<(), Memory>
        ensures { OnOk result (self.new ≡ spec.with_name self.old name) }
    {
        self.names.insert(name)?;
        Ok(())
    }

    /// Without those that stand among others.
    pub fn forget(&mut self, others: &Names)
        ensures { self.new ≡ filter (λ name. not (spec.is_among others.now name)) self.old }
    {
        self.names.retain(|name| !others.has(name));
    }

    /// With names that they lack.
    pub fn add_all(&mut self, more: &[Name]) -> Result<(), Memory>
        ensures { OnOk result (self.new ≡ fold spec.with_name self.old more.now) }
    {
        for name in more {
            self.add(name.copy()?)?;
        }
        Ok(())
    }

    /// With the variables of patterns that they lack.
    pub fn add_patterns(&mut self, patterns: &[Pattern]) -> Result<(), Memory>
        ensures { OnOk result (self.new ≡ fold spec.with_name self.old (variables patterns.now)) }
    {
        for pattern in patterns {
            self.add_pattern(pattern)?;
        }
        Ok(())
    }

    fn add_pattern(&mut self, pattern: &Pattern) -> Result<(), Memory>
        ensures { OnOk result (self.new ≡ fold spec.with_name self.old (spec.pattern_names pattern.now)) }
    {
        self.add_part(&pattern.subject)?;
        self.add_part(&pattern.predicate)?;
        self.add_part(&pattern.object)
    }

    fn add_part(&mut self, part: &PatternTerm) -> Result<(), Memory>
        ensures { OnOk result (self.new ≡ fold spec.with_name self.old (spec.part_names part.now)) }
    {
        match part {
            PatternTerm::Variable(name) => self.add(name.copy()?),
            PatternTerm::Constant(_) => Ok(()),
        }
    }
}
