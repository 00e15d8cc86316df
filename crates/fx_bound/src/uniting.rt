//! What the members of a unit told of a batch, united.
ghost use Rattle.std.specs.Prelude.{◌≡◌, All, Contains, IfOk, IsPermutation, List, map};
ghost use Rattle.fx_terms.specs.declared.triples.Triple.{Triple as TripleParts};
ghost use Rattle.fx_algebra.specs.Graphs.{union};
ghost use Rattle.fx_algebra.specs.Units.{step};
ghost use Rattle.fx_spelling.specs.Units.{IsSound};
ghost use Rattle.fx_bound.specs.Answers as spec;
ghost use Rattle.fx_bound.specs.Parts.{places};
ghost use Rattle.fx_founds.specs.Uniting.{united};

use crate::batches::Batch;
use fx_algebra::Row;
use fx_founds::{Found, unite_rows};
use fx_terms::{Items, Memory};
use std::alloc::Global;

/// All that was found for the branches of a batch, by the number of the branch and then in the order of solutions, each solution of a
/// branch once, and each under the number of the input row that the branch's row comes from.
///
/// Where the unit is sound over the graphs of members, and the lists are what is read of answers that its members give to the text, one for
/// each, these rows are what the unit makes of the batch's rows over the union of the graphs.
pub fn unite(alloc: Global, batch: &Batch, lists: &[Items<Found>]) -> Result<Vec<Row>, Memory>
    requires { All (λ list. All (λ f. Contains (spec.numbers batch.now) f.branch) list) lists.now }
    ensures exact { IfOk result (λ rows. rows.items ≡ united (places batch.now) lists.now) }
    ensures step { (graphs : List (List TripleParts)) → IsSound graphs batch.now.unit → spec.AreReadOf graphs batch.now batch.now.unit.members lists.now
        → IfOk result (λ rows. IsPermutation rows.items (step (union graphs) batch.now.unit batch.now.rows)) }
{
    let _branches = batch.branches();
    unite_rows(alloc, batch.rows(), lists)
}
