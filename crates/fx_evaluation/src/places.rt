//! Which occurrence of SERVICE would have to be asked.
ghost use Rattle.std.specs.Prelude.{◌≡◌, IfOk};
ghost use Rattle.fx_evaluation.specs.FirstHere as spec;

use fx_algebra::{Query, services};
use fx_terms::Memory;
use std::alloc::Global;

/// The number of the first occurrence of SERVICE that isn't down, if there is one.
pub fn first_here(alloc: Global, query: &Query, down: &[u64]) -> Result<Option<u64>, Memory>
    ensures { IfOk result (λ place. place ≡ spec.first_here query.now down.now) }
{
    let occurrences = services(alloc, query)?;
    let marks = marks(alloc, occurrences.len(), down)?;
    let place = first_false(marks.as_slice());
    Ok(place)
}

// For each number below a count whether it stands in a list.
fn marks(alloc: Global, count: usize, numbers: &[u64]) -> Result<Vec<bool>, Memory>
    ensures { IfOk result (λ marks. spec.AreMarks numbers.now count marks.items) }
{
    let mut marks = vec![in alloc; false; count]?;
    for number in numbers {
        let place = *number as usize;
        if place < count {
            marks[place] = true;
        }
    }
    Ok(marks)
}

fn first_false(marks: &[bool]) -> Option<u64>
    ensures { result ≡ spec.first_false 0 marks.now }
{
    for i in 0..marks.len() {
        if !marks[i] {
            return Some(i as u64);
        }
    }
    None
}
