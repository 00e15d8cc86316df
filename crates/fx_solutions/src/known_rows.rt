//! What is known of rows by their type, for proofs that need to know. These functions do nothing.
ghost use Rattle.std.specs.Prelude.{All, IsTrue};
ghost use Rattle.fx_algebra.specs.Solutions.{rises};

use fx_algebra::Solution;

/// The names of each row rise.
pub fn known_to_rise(rows: &[Solution])
    ensures { All (λ s. IsTrue (rises s)) rows.now }
{
    for row in rows {
        let _pairs = row.pairs();
    }
}
