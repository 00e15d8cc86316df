//! The variables of a unit, and their other names.
ghost use Rattle.std.specs.Prelude.{◌≡◌, ◌++◌, ◌<◌, ◌^◌, fold, IfOk, length, OnOk, string_bytes};
ghost use Rattle.std.specs.Fmt.{decimal};
ghost use Rattle.fx_algebra.specs.BasicGraphPatterns.{variables};
ghost use Rattle.fx_algebra.specs.Scopes.{once, part_names, pattern_names, with_name};
ghost use Rattle.fx_values.specs.Values as spec;

use fx_terms::{Items, Memory, Name, Pattern, PatternTerm};
use indexmap::IndexSet;
use itoa::Buffer;
use std::alloc::Global;
use std::marker::Model;

/// Names, each once, in the order in which they were added. Contracts see the list of them.
#[derive(Drop)]
pub(crate) struct Names {
    names: IndexSet<Name>,
}

impl Model for Names {
    ghost use Rattle.std.specs.Prelude.{List, ℕ};

    ghost Value = { List (List ℕ) };

    ghost view = { λ n. n.names.keys };
}

impl Names {
    /// The variables of patterns, each at its first place.
    pub fn of(alloc: Global, patterns: &[Pattern]) -> Result<Names, Memory>
        ensures { IfOk result (λ names. names ≡ once (variables patterns.now)) }
    {
        let mut names = Names {
            names: IndexSet::new(alloc),
        };
        for pattern in patterns {
            names.add_pattern(pattern)?;
        }
        Ok(names)
    }

    fn add_pattern(&mut self, pattern: &Pattern) -> Result<(), Memory>
        ensures { OnOk result (self.new ≡ fold with_name self.old (pattern_names pattern.now)) }
    {
        self.add_part(&pattern.subject)?;
        self.add_part(&pattern.predicate)?;
        self.add_part(&pattern.object)
    }

    fn add_part(&mut self, part: &PatternTerm) -> Result<(), Memory>
        ensures { OnOk result (self.new ≡ fold with_name self.old (part_names part.now)) }
    {
        match part {
            PatternTerm::Variable(name) => self.add(name.copy()?),
            PatternTerm::Constant(_) => Ok(()),
        }
    }

    fn add(&mut self, name: Name) -> Result<(), Memory>
        ensures { OnOk result (self.new ≡ with_name self.old name) }
    {
        self.names.insert(name)?;
        Ok(())
    }

    /// All of them.
    pub fn as_slice(&self) -> &[Name]
        ensures { result.now ≡ self.now }
    {
        self.names.as_slice()
    }

    /// All of them, as a list of its own.
    pub fn items(&self, alloc: Global) -> Result<Items<Name>, Memory>
        ensures { IfOk result (λ items. items ≡ self.now) }
    {
        let mut items = Items::new(alloc);
        for name in self.as_slice() {
            items.push(name.copy()?)?;
        }
        Ok(items)
    }

    /// How many there are.
    pub fn len(&self) -> usize
        ensures all { result ≡ length self.now }
        ensures few { length self.now < 2 ^ 64 }
    {
        self.names.len()
    }

    /// How many stand before a name, or how many there are where they lack it.
    pub fn place(&self, name: &Name) -> usize
        ensures { result ≡ spec.place_of self.now name.now }
    {
        match self.names.get_index_of(name) {
            Some(place) => place,
            None => self.names.len(),
        }
    }
}

/// The other name of a variable, by its place among the unit's.
pub(crate) fn sent_name(alloc: Global, place: usize) -> Result<Name, Memory>
    ensures { IfOk result (λ name. name ≡ spec.sent_name place) }
{
    let mut text = String::new(alloc);
    push_sent(&mut text, place)?;
    Name::known(alloc, text.as_str())
}

/// The column of the rows' numbers.
pub(crate) fn number_name(alloc: Global) -> Result<Name, Memory>
    ensures { IfOk result (λ name. name ≡ spec.number_name) }
{
    Name::known(alloc, "k")
}

/// The other name of a variable, behind a text.
pub(crate) fn push_sent(text: &mut String, place: usize) -> Result<(), Memory>
    ensures { OnOk result (string_bytes text.new ≡ string_bytes text.old ++ spec.sent_name place) }
{
    text.push('v')?;
    push_decimal(text, place as u64)
}

fn push_decimal(text: &mut String, number: u64) -> Result<(), Memory>
    ensures { OnOk result (string_bytes text.new ≡ string_bytes text.old ++ decimal number) }
{
    let mut buffer = Buffer::new();
    text.push_str(buffer.format(number))?;
    Ok(())
}
