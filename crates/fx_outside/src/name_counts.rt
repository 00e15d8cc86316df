//! Counts, one for each name.
ghost use Rattle.std.specs.Prelude.{◌≡◌, ◌<◌, ◌≤◌, ◌+◌, List, ℕ, IfOk, position, cond, bytes_eq};
ghost use Rattle.fx_outside.specs.NameCounts.{count_of, IsPlaceOf, has_name};

use std::alloc::{AllocError, Global};

/// A count for each name, which is 0 for a name that was never counted.
#[derive(Debug, Drop)]
pub struct NameCounts {
    counts: Vec<(String, u64)>,
}

impl NameCounts {
    /// Counts that are all 0.
    pub fn new(alloc: Global) -> NameCounts
        ensures { (name : List ℕ) → count_of result name ≡ 0 }
    {
        NameCounts {
            counts: Vec::new(alloc),
        }
    }

    /// The place of this name's count, made where it has none, so that counting takes no memory.
    ///
    /// `AllocError` comes for want of memory, and where the count stands at the end of `u64`, so that it can't rise.
    pub fn place(&mut self, name: &str) -> Result<usize, AllocError>
        ensures same { (other : List ℕ) → count_of self.new other ≡ count_of self.old other }
        ensures found { IfOk result (λ place. IsPlaceOf self.new place name.now) }
    {
        if let Some(place) = first_place(self.counts.as_slice(), name) {
            if self.counts[place].1 >= u64::MAX {
                return Err(AllocError);
            }
            return Ok(place);
        }
        let name = String::from_str(*self.counts.allocator(), name)?;
        let place = self.counts.len();
        self.counts.push((name, 0))?;
        Ok(place)
    }

    /// Counts one more at a place, and gives the count.
    pub fn raise(&mut self, place: usize) -> u64
        requires { (name : List ℕ) × IsPlaceOf self.old place name }
        ensures count { (name : List ℕ) → IsPlaceOf self.old place name → result ≡ count_of self.old name + 1 }
        ensures kept { (other : List ℕ) → count_of self.old other ≤ count_of self.new other }
        ensures risen { (name : List ℕ) → IsPlaceOf self.old place name → count_of self.old name < count_of self.new name }
        ensures raised { (name : List ℕ) → IsPlaceOf self.old place name → (other : List ℕ) → count_of self.new other ≡ count_of self.old other + cond (bytes_eq name other) 1 0 }
    {
        let count = self.counts[place].1 + 1;
        self.counts[place].1 = count;
        count
    }
}

// The place of the first entry of a name.
fn first_place(counts: &[(String, u64)], name: &str) -> Option<usize>
    ensures { result ≡ position (has_name name.now) counts.now }
{
    counts.iter().position(|entry| entry.0.as_str() == name)
}
