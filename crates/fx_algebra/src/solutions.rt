//! Solutions.
ghost use Rattle.std.specs.Prelude.{◌≡◌, ◌≤◌, length, filter, [], IfOk, OnOk, None, IsTrue, true};
ghost use Rattle.std.specs.Option.{option_copied};
ghost use Rattle.fx_algebra.specs.Scopes.{is_among as is_among_names};
ghost use Rattle.fx_algebra.specs.Sequences.{projected};
ghost use Rattle.fx_algebra.specs.Solutions as spec;

use crate::scopes::is_among;
use fx_terms::{Memory, Name, Term};
use std::alloc::Global;
use std::cmp::Ordering;
use std::marker::Model;

/// A solution: finitely many names, each with a term (SPARQL 1.1 section 18.1.8). Contracts see the list of its pairs by
/// rising name, in which no name stands twice.
#[derive(Drop)]
pub struct Solution {
    pairs: Vec<(Name, Term)>,
}

impl Model for Solution {
    ghost use Rattle.std.specs.Prelude.{IsTrue};
    ghost use Rattle.fx_algebra.specs.Solutions.{Bindings, rises};

    ghost Value = { Bindings };

    ghost view = { λ s. s.pairs.items };

    ghost invariant = { λ s. IsTrue (rises s.pairs.items) };
}

impl Solution {
    /// The solution that binds nothing. It takes no memory.
    pub fn empty(alloc: Global) -> Solution
        ensures { result ≡ [] }
    {
        Solution {
            pairs: Vec::new(alloc),
        }
    }

    /// The solution of pairs whose names rise. It takes no memory.
    pub fn of_rising(pairs: Vec<(Name, Term)>) -> Solution
        requires { IsTrue (spec.rises pairs.items) }
        ensures { result ≡ pairs.items }
    {
        Solution { pairs }
    }

    /// The names and their terms, by rising name.
    pub fn pairs(&self) -> &[(Name, Term)]
        ensures all { result.now ≡ self.now }
        ensures rises { IsTrue (spec.rises self.now) }
    {
        self.pairs.as_slice()
    }

    /// The term of a name, or `None` exactly where the name is unbound.
    pub fn get(&self, name: &Name) -> Option<&Term>
        ensures { option_copied result ≡ spec.term_of self.now name.now }
    {
        find_term(self.pairs.as_slice(), name)
    }

    /// Whether both are equal on each common name (section 18.3, compatible mappings).
    pub fn agrees(&self, other: &Solution) -> bool
        ensures { result ≡ spec.agree self.now other.now }
    {
        all_agree(self.pairs.as_slice(), other)
    }

    /// The pairs of both, which agree.
    pub fn merge(&self, alloc: Global, other: &Solution) -> Result<Solution, Memory>
        requires { spec.agree self.now other.now ≡ true }
        ensures both { IfOk result (λ both. both ≡ spec.merge self.now other.now) }
        ensures rises { IsTrue (spec.rises self.now) }
    {
        Ok(Solution {
            pairs: merge_pairs(alloc, self.pairs.as_slice(), other.pairs.as_slice())?,
        })
    }

    /// The solution with one more pair, whose name is unbound.
    pub fn with(&self, alloc: Global, name: &Name, term: &Term) -> Result<Solution, Memory>
        requires { spec.term_of self.now name.now ≡ None }
        ensures { IfOk result (λ more. more ≡ spec.with_pair self.now name.now term.now) }
    {
        Ok(Solution {
            pairs: with_pair(alloc, self.pairs.as_slice(), name, term)?,
        })
    }

    /// The pairs whose names are columns.
    pub fn project(&self, alloc: Global, columns: &[Name]) -> Result<Solution, Memory>
        ensures part { IfOk result (λ part. part ≡ projected columns.now self.now) }
        ensures rises { IsTrue (spec.rises self.now) }
    {
        Ok(Solution {
            pairs: kept_pairs(alloc, self.pairs.as_slice(), columns)?,
        })
    }

    /// An equal solution, which shares the texts.
    pub fn copy(&self, alloc: Global) -> Result<Solution, Memory>
        ensures { IfOk result (λ copy. copy ≡ self.now) }
    {
        Ok(Solution {
            pairs: copy_pairs(alloc, self.pairs.as_slice(), 0)?,
        })
    }
}

// The order is pair by pair, by name and then by term.
impl PartialEq for Solution {
    ghost use Rattle.std.specs.Ordering.{eq_by_cmp};
    ghost use Rattle.std.specs.Cmp.{partial_equiv_from_equiv};
    ghost use Rattle.std.proofs.lemmas.Cmp.{eq_by_cmp_equiv};
    ghost use Rattle.fx_algebra.specs.Solutions.{solution_cmp, solutions_total};

    ghost eq = { eq_by_cmp solution_cmp };

    ghost laws = { partial_equiv_from_equiv (eq_by_cmp_equiv solutions_total) };

    fn eq(&self, other: &Solution) -> bool {
        self.cmp(other) == Ordering::Equal
    }
}

impl Eq for Solution {
    ghost use Rattle.std.proofs.lemmas.Cmp.{eq_by_cmp_equiv};
    ghost use Rattle.fx_algebra.specs.Solutions.{solutions_total};

    ghost laws = { eq_by_cmp_equiv solutions_total };
}

impl Ord for Solution {
    ghost use Rattle.std.proofs.Common.{refl};
    ghost use Rattle.fx_algebra.specs.Solutions.{solution_cmp, solutions_total};

    ghost cmp = { solution_cmp };

    ghost total = { solutions_total };

    ghost matches_partial_cmp = { λ x y. refl };

    ghost matches_eq = { λ x y. refl };

    fn cmp(&self, other: &Solution) -> Ordering {
        self.pairs.cmp(&other.pairs)
    }
}

impl PartialOrd for Solution {
    ghost use Rattle.std.proofs.Common.{refl};
    ghost use Rattle.std.specs.Ordering.{as_partial_cmp};
    ghost use Rattle.std.specs.Cmp.{partial_order_from_agreeing_total};
    ghost use Rattle.fx_algebra.specs.Solutions.{solution_cmp, solutions_total};

    ghost partial_cmp = { as_partial_cmp solution_cmp };

    ghost laws = { partial_order_from_agreeing_total solution_cmp solutions_total (λ x y. refl) (λ x y. refl) };

    fn partial_cmp(&self, other: &Solution) -> Option<Ordering> {
        Some(self.cmp(other))
    }
}

fn find_term<'a>(pairs: &'a [(Name, Term)], name: &Name) -> Option<&'a Term>
    ensures { option_copied result ≡ spec.term_of pairs.now name.now }
{
    for pair in pairs {
        if *name == pair.0 {
            return Some(&pair.1);
        }
    }
    None
}

fn all_agree(pairs: &[(Name, Term)], other: &Solution) -> bool
    ensures { result ≡ spec.agree pairs.now other.now }
{
    for pair in pairs {
        if !is_or_none(&pair.1, other.get(&pair.0)) {
            return false;
        }
    }
    true
}

// Whether a term is the other, where there is another.
fn is_or_none(term: &Term, other: Option<&Term>) -> bool
    ensures { result ≡ spec.is_or_none term.now (option_copied other.entry) }
{
    match other {
        None => true,
        Some(other) => *term == *other,
    }
}

// Equal pairs, with room for so many more.
fn copy_pairs(
    alloc: Global,
    pairs: &[(Name, Term)],
    room: usize,
) -> Result<Vec<(Name, Term)>, Memory>
    ensures { IfOk result (λ copies. copies.items ≡ pairs.now) }
{
    let mut copies = Vec::with_capacity(alloc, pairs.len().saturating_add(room))?;
    for pair in pairs {
        let name = pair.0.copy()?;
        let term = pair.1.copy()?;
        copies.push((name, term))?;
    }
    Ok(copies)
}

// Puts a pair at the place of its name, which is unbound.
fn put_pair(pairs: &mut Vec<(Name, Term)>, name: &Name, term: &Term) -> Result<(), Memory>
    requires { spec.term_of pairs.old.items name.now ≡ None }
    ensures { OnOk result (pairs.new.items ≡ spec.with_pair pairs.old.items name.now term.now) }
{
    let place = place_of(pairs.as_slice(), name);
    let name = name.copy()?;
    let term = term.copy()?;
    pairs.insert(place, (name, term))?;
    Ok(())
}

// How many names lie below one.
fn place_of(pairs: &[(Name, Term)], name: &Name) -> usize
    ensures exact { result ≡ spec.place_in pairs.now name.now }
    ensures within { result ≤ length pairs.now }
{
    let mut place = 0;
    for pair in pairs {
        if *name < pair.0 {
            return place;
        }
        place += 1;
    }
    place
}

fn with_pair(
    alloc: Global,
    pairs: &[(Name, Term)],
    name: &Name,
    term: &Term,
) -> Result<Vec<(Name, Term)>, Memory>
    requires { spec.term_of pairs.now name.now ≡ None }
    ensures { IfOk result (λ more. more.items ≡ spec.with_pair pairs.now name.now term.now) }
{
    let mut more = copy_pairs(alloc, pairs, 1)?;
    put_pair(&mut more, name, term)?;
    Ok(more)
}

fn merge_pairs(
    alloc: Global,
    left: &[(Name, Term)],
    right: &[(Name, Term)],
) -> Result<Vec<(Name, Term)>, Memory>
    ensures { IfOk result (λ both. both.items ≡ spec.merge left.now right.now) }
{
    let mut both = copy_pairs(alloc, left, right.len())?;
    for pair in right {
        put_new(&mut both, &pair.0, &pair.1)?;
    }
    Ok(both)
}

// Puts a pair, where its name is unbound.
fn put_new(pairs: &mut Vec<(Name, Term)>, name: &Name, term: &Term) -> Result<(), Memory>
    ensures { OnOk result (pairs.new.items ≡ spec.with_new pairs.old.items (name.now, term.now)) }
{
    match find_term(pairs.as_slice(), name) {
        Some(_) => Ok(()),
        None => put_pair(pairs, name, term),
    }
}

fn kept_pairs(
    alloc: Global,
    pairs: &[(Name, Term)],
    columns: &[Name],
) -> Result<Vec<(Name, Term)>, Memory>
    ensures { IfOk result (λ kept. kept.items ≡ filter (λ e. is_among_names columns.now e.0) pairs.now) }
{
    let mut kept = Vec::new(alloc);
    for pair in pairs {
        if is_among(columns, &pair.0) {
            let name = pair.0.copy()?;
            let term = pair.1.copy()?;
            kept.push((name, term))?;
        }
    }
    Ok(kept)
}
