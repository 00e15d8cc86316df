//! The prefixes that are declared.
ghost use Rattle.std.specs.Prelude.{◌≡◌, ℕ, List, OnOk, Some, [], bytes_eq, if◌then◌else◌};
ghost use Rattle.std.specs.Option.{option_copied};
ghost use Rattle.fx_grammar.specs.Grammar as grammar;

use fx_terms::{Iri, Memory};
use indexmap::IndexMap;
use std::alloc::Global;
use std::marker::Model;

/// Prefixes with the IRIs that they are declared for last, which are found by the texts of the prefixes. Contracts see declarations, of which it counts
/// alone what each prefix is declared for.
#[derive(Drop)]
pub struct Prefixes {
    latest: IndexMap<String, Iri>,
}

impl Model for Prefixes {
    ghost use Rattle.std.specs.Prelude.{List, ℕ};
    ghost use Rattle.fx_turtle.specs.Kept.{kept};

    ghost Value = { List (List ℕ × List ℕ) };

    ghost view = { λ p. kept p.latest.entries };
}

impl Prefixes {
    /// None.
    pub fn new(alloc: Global) -> Prefixes
        ensures { result ≡ [] }
    {
        Prefixes {
            latest: IndexMap::new(alloc),
        }
    }

    /// The IRI that a prefix is declared for.
    pub fn find(&self, prefix: &str) -> Option<&Iri>
        ensures { option_copied result ≡ grammar.declared self.now prefix.now }
    {
        self.latest.get(prefix)
    }

    /// One more declaration, in place of that of the same prefix.
    pub fn declare(&mut self, alloc: Global, prefix: &str, iri: Iri) -> Result<(), Memory>
        ensures { OnOk result ((q : List ℕ) → grammar.declared self.new q ≡ (if bytes_eq prefix.now q then Some iri else grammar.declared self.old q)) }
    {
        let text = String::from_str(alloc, prefix)?;
        self.latest.insert(text, iri)?;
        Ok(())
    }
}
