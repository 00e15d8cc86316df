//! Terms.
ghost use Rattle.std.specs.Prelude.{◌≡◌, IfOk};
ghost use Rattle.fx_terms.specs.Terms.{term_cmp, IsTerm};

use crate::allocation::Memory;
use crate::iris::Iri;
use crate::literals::Literal;
use std::cmp::Ordering;

/// A term of a graph: an IRI or a literal. Blank nodes are none of this project's terms.
#[derive(Drop)]
pub enum Term {
    Iri(Iri),
    Literal(Literal),
}

impl Term {
    /// The order of terms: IRIs before literals, then by the code points of form, datatype and tag, where an IRI has its
    /// text as form and nothing else. Equal are equal terms alone.
    pub fn compare(&self, other: &Term) -> Ordering
        ensures order { result ≡ term_cmp self.now other.now }
        ensures same { result ≡ Ordering.Equal → self.now ≡ other.now }
    {
        self.cmp(other)
    }

    /// That it is what its reader accepts, for a proof that needs to know. It does nothing.
    pub fn known(&self)
        ensures { IsTerm self.now }
    {
        match self {
            Term::Iri(iri) => {
                let _ = iri.text();
            }
            Term::Literal(literal) => {
                let _ = literal.tag();
            }
        }
    }

    /// An equal term, which shares the texts.
    pub fn copy(&self) -> Result<Term, Memory>
        ensures { IfOk result (λ copy. copy ≡ self.now) }
    {
        match self {
            Term::Iri(iri) => Ok(Term::Iri(iri.copy()?)),
            Term::Literal(literal) => Ok(Term::Literal(literal.copy()?)),
        }
    }
}

impl PartialEq for Term {
    ghost use Rattle.std.specs.Ordering.{eq_by_cmp};
    ghost use Rattle.std.specs.Cmp.{partial_equiv_from_equiv};
    ghost use Rattle.std.proofs.lemmas.Cmp.{eq_by_cmp_equiv};
    ghost use Rattle.fx_terms.specs.Terms.{term_cmp, terms_total};

    ghost eq = { eq_by_cmp term_cmp };

    ghost laws = { partial_equiv_from_equiv (eq_by_cmp_equiv terms_total) };

    fn eq(&self, other: &Term) -> bool {
        self.cmp(other) == Ordering::Equal
    }
}

impl Eq for Term {
    ghost use Rattle.std.proofs.lemmas.Cmp.{eq_by_cmp_equiv};
    ghost use Rattle.fx_terms.specs.Terms.{terms_total};

    ghost laws = { eq_by_cmp_equiv terms_total };
}

impl Ord for Term {
    ghost use Rattle.std.proofs.Common.{refl};
    ghost use Rattle.fx_terms.specs.Terms.{term_cmp, terms_total};

    ghost cmp = { term_cmp };

    ghost total = { terms_total };

    ghost matches_partial_cmp = { λ x y. refl };

    ghost matches_eq = { λ x y. refl };

    fn cmp(&self, other: &Term) -> Ordering {
        match (self, other) {
            (Term::Iri(a), Term::Iri(b)) => a.cmp(b),
            (Term::Iri(_), Term::Literal(_)) => Ordering::Less,
            (Term::Literal(_), Term::Iri(_)) => Ordering::Greater,
            (Term::Literal(a), Term::Literal(b)) => a.cmp(b),
        }
    }
}

impl PartialOrd for Term {
    ghost use Rattle.std.proofs.Common.{refl};
    ghost use Rattle.std.specs.Ordering.{as_partial_cmp};
    ghost use Rattle.std.specs.Cmp.{partial_order_from_agreeing_total};
    ghost use Rattle.fx_terms.specs.Terms.{term_cmp, terms_total};

    ghost partial_cmp = { as_partial_cmp term_cmp };

    ghost laws = { partial_order_from_agreeing_total term_cmp terms_total (λ x y. refl) (λ x y. refl) };

    fn partial_cmp(&self, other: &Term) -> Option<Ordering> {
        Some(self.cmp(other))
    }
}
