//! Triples.
ghost use Rattle.std.specs.Prelude.{◌≡◌, IfOk};
ghost use Rattle.fx_terms.specs.Triples.{IsTriple};

use crate::allocation::Memory;
use crate::iris::Iri;
use crate::terms::Term;
use std::cmp::Ordering;

/// A triple of a graph (RDF 1.1 Concepts 3.1).
#[derive(Drop)]
pub struct Triple {
    pub subject: Iri,
    pub predicate: Iri,
    pub object: Term,
}

impl Triple {
    /// That its parts are what their readers accept, for a proof that needs to know. It does nothing.
    pub fn known(&self)
        ensures { IsTriple self.now }
    {
        let _ = self.subject.text();
        let _ = self.predicate.text();
        self.object.known();
    }

    /// An equal triple, which shares the texts.
    pub fn copy(&self) -> Result<Triple, Memory>
        ensures { IfOk result (λ copy. copy ≡ self.now) }
    {
        Ok(Triple {
            subject: self.subject.copy()?,
            predicate: self.predicate.copy()?,
            object: self.object.copy()?,
        })
    }
}

impl PartialEq for Triple {
    ghost use Rattle.std.specs.Ordering.{eq_by_cmp};
    ghost use Rattle.std.specs.Cmp.{partial_equiv_from_equiv};
    ghost use Rattle.std.proofs.lemmas.Cmp.{eq_by_cmp_equiv};
    ghost use Rattle.fx_terms.specs.Triples.{triple_cmp, triples_total};

    ghost eq = { eq_by_cmp triple_cmp };

    ghost laws = { partial_equiv_from_equiv (eq_by_cmp_equiv triples_total) };

    fn eq(&self, other: &Triple) -> bool {
        self.cmp(other) == Ordering::Equal
    }
}

impl Eq for Triple {
    ghost use Rattle.std.proofs.lemmas.Cmp.{eq_by_cmp_equiv};
    ghost use Rattle.fx_terms.specs.Triples.{triples_total};

    ghost laws = { eq_by_cmp_equiv triples_total };
}

impl Ord for Triple {
    ghost use Rattle.std.proofs.Common.{refl};
    ghost use Rattle.fx_terms.specs.Triples.{triple_cmp, triples_total};

    ghost cmp = { triple_cmp };

    ghost total = { triples_total };

    ghost matches_partial_cmp = { λ x y. refl };

    ghost matches_eq = { λ x y. refl };

    fn cmp(&self, other: &Triple) -> Ordering {
        let subjects = self.subject.cmp(&other.subject);
        if subjects != Ordering::Equal {
            return subjects;
        }
        let predicates = self.predicate.cmp(&other.predicate);
        if predicates != Ordering::Equal {
            return predicates;
        }
        self.object.cmp(&other.object)
    }
}

impl PartialOrd for Triple {
    ghost use Rattle.std.proofs.Common.{refl};
    ghost use Rattle.std.specs.Ordering.{as_partial_cmp};
    ghost use Rattle.std.specs.Cmp.{partial_order_from_agreeing_total};
    ghost use Rattle.fx_terms.specs.Triples.{triple_cmp, triples_total};

    ghost partial_cmp = { as_partial_cmp triple_cmp };

    ghost laws = { partial_order_from_agreeing_total triple_cmp triples_total (λ x y. refl) (λ x y. refl) };

    fn partial_cmp(&self, other: &Triple) -> Option<Ordering> {
        Some(self.cmp(other))
    }
}
