//! The rows that a block has.
ghost use Rattle.std.specs.Prelude.{◌≡◌, ◌≤◌, IfOk, length, map};
ghost use Rattle.fx_renaming.specs.Branches.{bound_part, bound_pattern, is_hopeless as is_hopeless_list, is_literal as is_literal_part};
ghost use Rattle.fx_founds.specs.Uniting.{branches};
ghost use Rattle.fx_values.specs.Parts.{place_by};

use fx_algebra::{Row, Solution, Unit};
use fx_terms::{Items, Memory, Pattern, PatternTerm, Term};
use std::alloc::Global;

/// The rows that are worth asking for, each with its number among those handed in. A row that puts a literal in the place of a subject or a
/// predicate is left out, and the others keep their numbers.
pub(crate) fn asked_rows(
    alloc: Global,
    unit: &Unit,
    rows: &[Row],
) -> Result<Items<(u32, Row)>, Memory>
    requires { length rows.now ≤ 64 }
    ensures { IfOk result (λ asked. map place_by asked ≡ branches unit.now rows.now) }
{
    let mut asked = Items::new(alloc);
    let mut number = 0;
    for row in rows {
        if !is_hopeless(unit.patterns.as_slice(), &row.solution) {
            asked.push((number, row.copy(alloc)?))?;
        }
        number += 1;
    }
    Ok(asked)
}

fn is_hopeless(patterns: &[Pattern], row: &Solution) -> bool
    ensures { result ≡ is_hopeless_list (map (bound_pattern (λ name. name) row.now) patterns.now) }
{
    for pattern in patterns {
        if becomes_literal(&pattern.subject, row) || becomes_literal(&pattern.predicate, row) {
            return true;
        }
    }
    false
}

// Whether a part is a literal, or a variable that the row binds to one.
fn becomes_literal(part: &PatternTerm, row: &Solution) -> bool
    ensures { result ≡ is_literal_part (bound_part (λ name. name) row.now part.now) }
{
    match part {
        PatternTerm::Constant(term) => is_literal(term),
        PatternTerm::Variable(name) => match row.get(name) {
            Some(term) => is_literal(term),
            None => false,
        },
    }
}

fn is_literal(term: &Term) -> bool
    ensures { result ≡ is_literal_part (PatternTerm.Constant term.now) }
{
    matches!(term, Term::Literal(_))
}
