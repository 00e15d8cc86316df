//! The branches of a batch.
ghost use Rattle.std.specs.Prelude.{◌≡◌, ◌≤◌, false, IfOk, length, map};
ghost use Rattle.fx_renaming.specs.Branches.{bound_pattern, is_hopeless as is_hopeless_list, is_literal as is_literal_part, bound_part};
ghost use Rattle.fx_bound.specs.Parts as parts;
ghost use Rattle.fx_bound.specs.Reading as reading;
ghost use Rattle.fx_founds.specs.Uniting.{branches};

use crate::names::{Names, check_name, sent_name};
use fx_algebra::{Row, Solution, Unit};
use fx_terms::{Items, Memory, Name, Pattern, PatternTerm, Term};
use std::alloc::Global;

/// A row as a text asks for it: its number among the rows that were handed in, the names in the text beside the unit's own, and the
/// name in the text that says that there is a solution, where no variable is left.
#[derive(Drop)]
pub struct Branch {
    pub number: u32,
    pub row: Row,
    pub sent: Items<(Name, Name)>,
    pub checked: Option<Name>,
}

/// The branches of rows. A row that puts a literal in the place of a subject or a predicate has none, and the others keep their numbers.
pub(crate) fn branches_of(
    alloc: Global,
    unit: &Unit,
    names: &Names,
    rows: &[Row],
) -> Result<Items<Branch>, Memory>
    requires names { names.now ≡ reading.unit_names unit.now }
    requires few { length rows.now ≤ 64 }
    ensures { IfOk result (λ all. all ≡ map (parts.branch_of unit.now) (branches unit.now rows.now)) }
{
    let mut all = Items::new(alloc);
    let mut number = 0;
    for row in rows {
        if !is_hopeless(unit.patterns.as_slice(), &row.solution) {
            all.push(branch_of(alloc, names, number, row)?)?;
        }
        number += 1;
    }
    Ok(all)
}

fn branch_of(alloc: Global, names: &Names, number: u32, row: &Row) -> Result<Branch, Memory>
    ensures { IfOk result (λ branch. branch ≡ parts.branch_by names.now (record { number = number; row = row.now })) }
{
    let sent = sent_names(alloc, names, number, &row.solution)?;
    let checked = checked_name(alloc, number, sent.as_slice())?;
    Ok(Branch {
        number,
        row: row.copy(alloc)?,
        sent,
        checked,
    })
}

fn sent_names(
    alloc: Global,
    names: &Names,
    number: u32,
    row: &Solution,
) -> Result<Items<(Name, Name)>, Memory>
    ensures { IfOk result (λ sent. sent ≡ parts.sent_by names.now number row.now) }
{
    let mut sent = Items::new(alloc);
    for name in names.as_slice() {
        if row.get(name).is_none() {
            sent.push(sent_pair(alloc, names, number, name)?)?;
        }
    }
    Ok(sent)
}

// The other name of a variable, beside its own.
fn sent_pair(alloc: Global, names: &Names, number: u32, name: &Name) -> Result<(Name, Name), Memory>
    ensures { IfOk result (λ pair. pair ≡ (reading.named names.now number name.now, name.now)) }
{
    Ok((sent_name(alloc, names.place(name), number)?, name.copy()?))
}

fn checked_name(alloc: Global, number: u32, sent: &[(Name, Name)]) -> Result<Option<Name>, Memory>
    ensures { IfOk result (λ name. name ≡ parts.checked_when number sent.now) }
{
    if sent.is_empty() {
        Ok(Some(check_name(alloc, number)?))
    } else {
        Ok(None)
    }
}

fn is_hopeless(patterns: &[Pattern], row: &Solution) -> bool
    ensures { result ≡ is_hopeless_list (map (bound_pattern (λ name. name) row.now) patterns.now) }
{
    for pattern in patterns {
        if becomes_literal(&pattern.subject, row) || becomes_literal(&pattern.predicate, row) {
            return true;
        }
    }
    false
}

// Whether a part is a literal, or a variable that the row binds to one.
fn becomes_literal(part: &PatternTerm, row: &Solution) -> bool
    ensures { result ≡ is_literal_part (bound_part (λ name. name) row.now part.now) }
{
    match part {
        PatternTerm::Constant(term) => is_literal(term),
        PatternTerm::Variable(name) => match row.get(name) {
            Some(term) => is_literal(term),
            None => false,
        },
    }
}

fn is_literal(term: &Term) -> bool
    ensures { result ≡ is_literal_part (PatternTerm.Constant term.now) }
{
    matches!(term, Term::Literal(_))
}
