//! What a row of the answer tells.
ghost use Rattle.std.specs.Prelude.{◌≡◌, ◌≤◌, IfOk, is_some, length, None, OnOk};
ghost use Rattle.std.specs.Option.{option_copied};
ghost use Rattle.fx_algebra.specs.Operators.{with_value};
ghost use Rattle.fx_algebra.specs.Solutions.{place_in, term_of, with_new, with_pair};
ghost use Rattle.fx_values.specs.Sent as spec;

use fx_algebra::Solution;
use fx_terms::{Memory, Name, Term};
use std::alloc::Global;

/// A row with the terms that another has under the other names, each under the unit's own name, where the row has none.
pub(crate) fn with_told(
    alloc: Global,
    sent: &[(Name, Name)],
    row: &Solution,
    told: &Solution,
) -> Result<Solution, Memory>
    ensures { IfOk result (λ s. s ≡ spec.with_told sent.now row.now told.now) }
{
    let pairs = told_pairs(alloc, sent, row.pairs(), told)?;
    Ok(Solution::of_rising(pairs))
}

fn told_pairs(
    alloc: Global,
    sent: &[(Name, Name)],
    row: &[(Name, Term)],
    told: &Solution,
) -> Result<Vec<(Name, Term)>, Memory>
    ensures { IfOk result (λ pairs. pairs.items ≡ spec.with_told sent.now row.now told.now) }
{
    let mut pairs = copy_pairs(alloc, row, sent.len())?;
    for pair in sent {
        put_value(&mut pairs, &pair.1, told.get(&pair.0))?;
    }
    Ok(pairs)
}

// Equal pairs, with room for some more.
fn copy_pairs(
    alloc: Global,
    pairs: &[(Name, Term)],
    more: usize,
) -> Result<Vec<(Name, Term)>, Memory>
    ensures { IfOk result (λ copies. copies.items ≡ pairs.now) }
{
    let mut copies = Vec::with_capacity(alloc, pairs.len().saturating_add(more))?;
    for pair in pairs {
        let name = pair.0.copy()?;
        let term = pair.1.copy()?;
        copies.push((name, term))?;
    }
    Ok(copies)
}

fn put_value(pairs: &mut Vec<(Name, Term)>, name: &Name, value: Option<&Term>) -> Result<(), Memory>
    ensures { OnOk result (pairs.new.items ≡ with_value pairs.old.items name.now (option_copied value.entry)) }
{
    match value {
        None => Ok(()),
        Some(term) => put_new(pairs, name, term),
    }
}

// Puts a pair at the place of its name, where the name is unbound.
fn put_new(pairs: &mut Vec<(Name, Term)>, name: &Name, term: &Term) -> Result<(), Memory>
    ensures { OnOk result (pairs.new.items ≡ with_new pairs.old.items (name.now, term.now)) }
{
    if binds(pairs.as_slice(), name) {
        return Ok(());
    }
    put_pair(pairs, name, term)
}

fn binds(pairs: &[(Name, Term)], name: &Name) -> bool
    ensures { result ≡ is_some (term_of pairs.now name.now) }
{
    for pair in pairs {
        if *name == pair.0 {
            return true;
        }
    }
    false
}

fn put_pair(pairs: &mut Vec<(Name, Term)>, name: &Name, term: &Term) -> Result<(), Memory>
    requires { term_of pairs.old.items name.now ≡ None }
    ensures { OnOk result (pairs.new.items ≡ with_pair pairs.old.items name.now term.now) }
{
    let place = place_of(pairs.as_slice(), name);
    let name = name.copy()?;
    let term = term.copy()?;
    pairs.insert(place, (name, term))?;
    Ok(())
}

// How many names lie below one.
fn place_of(pairs: &[(Name, Term)], name: &Name) -> usize
    ensures exact { result ≡ place_in pairs.now name.now }
    ensures within { result ≤ length pairs.now }
{
    let mut place = 0;
    for pair in pairs {
        if *name < pair.0 {
            return place;
        }
        place += 1;
    }
    place
}
