//! Whether some triple fits one pattern beside one row (SPARQL 1.1 section 18.3), up to the first that does.
ghost use Rattle.std.specs.Prelude.{◌≡◌, ◌≤◌, ◌+◌};
ghost use Rattle.std.specs.List.{filter_map};
ghost use Rattle.fx_algebra.specs.Answers.{has_rows};
ghost use Rattle.fx_algebra.specs.BasicGraphPatterns.{parts_of, forced};
ghost use Rattle.fx_store.specs.Lookups as spec;
ghost use Rattle.fx_store.specs.Orders.{triples_of, IsWithin};

use crate::evaluation::fits;
use crate::lookups::{Sought, run};
use crate::orders::{Orders, Run, Steps};
use fx_algebra::Solution;
use fx_terms::Pattern;
use std::sync::ledger::Ledger;

/// Whether some triple fits a row. It takes no memory.
pub(crate) fn some_fits<L: Ledger>(
    orders: &Orders,
    pattern: &Pattern,
    row: &Solution,
    steps: &mut Steps<L>,
) -> bool
    ensures some { result ≡ has_rows (filter_map (λ t. forced row.now (parts_of pattern.now t)) orders.now) }
    ensures steps { steps.new ≤ steps.old + spec.most_tries orders.now pattern.now row.now }
{
    match Sought::of(pattern, row) {
        None => false,
        Some(sought) => some_fits_with_parts(orders, &sought, pattern, row, steps),
    }
}

// The same, by the parts that the pattern has under the row.
fn some_fits_with_parts<L: Ledger>(
    orders: &Orders,
    sought: &Sought<'_>,
    pattern: &Pattern,
    row: &Solution,
    steps: &mut Steps<L>,
) -> bool
    requires { sought.now ≡ spec.known_of pattern.now row.now }
    ensures some { result ≡ has_rows (filter_map (λ t. forced row.now (parts_of pattern.now t)) orders.now) }
    ensures steps { steps.new ≤ steps.old + spec.most_tries orders.now pattern.now row.now }
{
    let found = run(orders, sought, steps);
    some_fits_in(orders, found, pattern, row, steps)
}

// Whether some triple of a run fits.
fn some_fits_in<L: Ledger>(
    orders: &Orders,
    run: Run,
    pattern: &Pattern,
    row: &Solution,
    steps: &mut Steps<L>,
) -> bool
    requires { IsWithin run orders.now }
    ensures some { result ≡ has_rows (filter_map (λ t. forced row.now (parts_of pattern.now t)) (triples_of run orders.now)) }
    ensures steps { steps.new ≤ steps.old + spec.tried (spec.fits_under pattern.now row.now) (triples_of run orders.now) }
{
    for place in run.start..run.end {
        let triple = orders.look(run.order, place, steps);
        if fits(pattern, row, triple) {
            return true;
        }
    }
    false
}
