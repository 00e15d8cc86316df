//! The prefixes that a query declares.
ghost use Rattle.std.specs.Prelude.{◌≡◌, ℕ, List, IfOk, OnOk, Some, bytes_eq, if◌then◌else◌};
ghost use Rattle.std.specs.Option.{option_copied};
ghost use Rattle.fx_grammar.specs.Grammar as grammar;
ghost use Rattle.fx_readers.specs.Prefixes.{found, IsFound};

use fx_grammar::Text;
use fx_terms::{Iri, Items, Memory};
use indexmap::IndexMap;
use std::alloc::Global;
use std::marker::Model;

/// Prefixes with the IRIs that they are declared for, which are found by the texts of the prefixes. Contracts see the declarations in
/// their order.
#[derive(Drop)]
pub struct Prefixes {
    declared: Items<(Text, Iri)>,
    latest: IndexMap<String, Iri>,
}

impl Model for Prefixes {
    ghost use Rattle.std.specs.Prelude.{List, ℕ};
    ghost use Rattle.fx_readers.specs.Prefixes.{IsFound};

    ghost Value = { List (List ℕ × List ℕ) };

    ghost view = { λ p. p.declared };

    ghost invariant = { λ p. IsFound p.latest.entries p.declared };
}

impl Prefixes {
    /// These declarations, in their order.
    pub fn of(alloc: Global, declared: Items<(Text, Iri)>) -> Result<Prefixes, Memory>
        ensures { IfOk result (λ prefixes. prefixes ≡ declared) }
    {
        let latest = latest(alloc, declared.as_slice())?;
        Ok(Prefixes { declared, latest })
    }

    /// The IRI that a prefix is declared for last.
    pub fn find(&self, prefix: &Text) -> Option<&Iri>
        ensures { option_copied result ≡ grammar.declared self.now prefix.now }
    {
        self.latest.get(prefix.as_str())
    }
}

// The last declaration of each prefix.
fn latest(alloc: Global, declared: &[(Text, Iri)]) -> Result<IndexMap<String, Iri>, Memory>
    ensures { IfOk result (λ map. IsFound map.entries declared.now) }
{
    let mut latest = IndexMap::new(alloc);
    for declaration in declared {
        put(alloc, &mut latest, declaration)?;
    }
    Ok(latest)
}

// One more declaration, in the place of that of the same prefix.
fn put(
    alloc: Global,
    latest: &mut IndexMap<String, Iri>,
    declaration: &(Text, Iri),
) -> Result<(), Memory>
    ensures { OnOk result ((q : List ℕ) → found latest.new.entries q ≡ (if bytes_eq declaration.now.0 q then Some declaration.now.1 else found latest.old.entries q)) }
{
    let text = String::from_str(alloc, declaration.0.as_str())?;
    latest.insert(text, declaration.1.copy()?)?;
    Ok(())
}
