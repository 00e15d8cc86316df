//! DISTINCT.
ghost use Rattle.std.specs.Prelude.{◌≡◌, fold, IfOk, []};
ghost use Rattle.std.specs.Cmp.Lexicographic.{slice_cmp};
ghost use Rattle.fx_algebra.specs.Sequences.{cells, cell_cmp, with_row};
ghost use Rattle.fx_algebra.specs.Solutions.{term_of};
ghost use Rattle.fx_solutions.specs.Ranks.{whole_rows};
ghost use Rattle.fx_solutions.specs.Selected as spec;

use crate::ranked_rows::Ranked;
use crate::sequences::compare_cells;
use fx_algebra::Solution;
use fx_terms::{Items, Memory, Name, Term};
use std::alloc::Global;
use std::cmp::Ordering;
use std::collections::BTreeSet;

/// The terms of a row under columns.
#[derive(Drop)]
pub(crate) struct Cells {
    pub cells: Items<Option<Term>>,
}

impl PartialEq for Cells {
    ghost use Rattle.std.specs.Ordering.{eq_by_cmp};
    ghost use Rattle.std.specs.Cmp.{partial_equiv_from_equiv};
    ghost use Rattle.std.proofs.lemmas.Cmp.{eq_by_cmp_equiv};
    ghost use Rattle.fx_solutions.specs.Selected.{cells_cmp, all_cells_total};

    ghost eq = { eq_by_cmp cells_cmp };

    ghost laws = { partial_equiv_from_equiv (eq_by_cmp_equiv all_cells_total) };

    fn eq(&self, other: &Cells) -> bool {
        self.cmp(other) == Ordering::Equal
    }
}

impl Eq for Cells {
    ghost use Rattle.std.proofs.lemmas.Cmp.{eq_by_cmp_equiv};
    ghost use Rattle.fx_solutions.specs.Selected.{all_cells_total};

    ghost laws = { eq_by_cmp_equiv all_cells_total };
}

impl Ord for Cells {
    ghost use Rattle.std.proofs.Common.{refl};
    ghost use Rattle.fx_solutions.specs.Selected.{cells_cmp, all_cells_total};

    ghost cmp = { cells_cmp };

    ghost total = { all_cells_total };

    ghost matches_partial_cmp = { λ x y. refl };

    ghost matches_eq = { λ x y. refl };

    fn cmp(&self, other: &Cells) -> Ordering {
        compare_lists(self.cells.as_slice(), other.cells.as_slice())
    }
}

impl PartialOrd for Cells {
    ghost use Rattle.std.proofs.Common.{refl};
    ghost use Rattle.std.specs.Ordering.{as_partial_cmp};
    ghost use Rattle.std.specs.Cmp.{partial_order_from_agreeing_total};
    ghost use Rattle.fx_solutions.specs.Selected.{cells_cmp, all_cells_total};

    ghost partial_cmp = { as_partial_cmp cells_cmp };

    ghost laws = { partial_order_from_agreeing_total cells_cmp all_cells_total (λ x y. refl) (λ x y. refl) };

    fn partial_cmp(&self, other: &Cells) -> Option<Ordering> {
        Some(self.cmp(other))
    }
}

fn compare_lists(left: &[Option<Term>], right: &[Option<Term>]) -> Ordering
    ensures { result ≡ slice_cmp cell_cmp left.now right.now }
{
    let mut others = right;
    for cell in left {
        match others {
            [] => return Ordering::Greater,
            [other, rest @ ..] => {
                let order = compare_cells(cell.as_ref(), other.as_ref());
                if order != Ordering::Equal {
                    return order;
                }
                others = rest;
            }
        }
    }
    if others.is_empty() {
        Ordering::Equal
    } else {
        Ordering::Less
    }
}

fn cells_of(alloc: Global, columns: &[Name], row: &Solution) -> Result<Cells, Memory>
    ensures { IfOk result (λ c. c ≡ spec.cells_of columns.now row.now) }
{
    let mut cells = Items::new(alloc);
    for column in columns {
        cells.push(cell_of(row, column)?)?;
    }
    Ok(Cells { cells })
}

fn cell_of(row: &Solution, column: &Name) -> Result<Option<Term>, Memory>
    ensures { IfOk result (λ cell. cell ≡ term_of row.now column.now) }
{
    match row.get(column) {
        Some(term) => Ok(Some(term.copy()?)),
        None => Ok(None),
    }
}

/// The rows, each once under the columns, at its first place.
pub(crate) fn distinct<'a>(
    alloc: Global,
    columns: &[Name],
    rows: Vec<Ranked<'a>>,
) -> Result<Vec<Ranked<'a>>, Memory>
    ensures { IfOk result (λ v. whole_rows v.items ≡ fold (with_row columns.now) [] (whole_rows rows.entry.items)) }
{
    let mut seen = BTreeSet::new(alloc);
    let mut kept = Vec::new(alloc);
    for one in rows {
        if seen.insert(cells_of(alloc, columns, one.row())?)? {
            kept.push(one)?;
        }
    }
    Ok(kept)
}
