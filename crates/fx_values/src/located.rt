//! What a row of an answer tells, and of which row.
ghost use Rattle.std.specs.Prelude.{◌≡◌};
ghost use Rattle.fx_values.specs.Reading as spec;

use fx_algebra::Solution;
use fx_founds::Found;

/// A solution that a member has for a row that was sent: the row's number, and the solution merged with that row's.
#[derive(Drop)]
pub struct Located {
    pub row: u32,
    pub solution: Solution,
}

impl Located {
    /// What was found for the branch of the row's number.
    pub fn into_found(self) -> Found
        ensures { result ≡ spec.found_of self }
    {
        let Located { row, solution } = self;
        Found {
            branch: row,
            solution,
        }
    }
}
