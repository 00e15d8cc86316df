//! Sets of names that keep the order in which they came.
ghost use Rattle.std.specs.Prelude.{◌≡◌, IfOk, OnOk, []};
ghost use Rattle.fx_algebra.specs.Scopes.{is_among, with_name};

use fx_terms::{Items, Memory, Name};
use indexmap::IndexSet;
use std::alloc::Global;

/// Whether a name stands among names.
pub fn has_name(names: &IndexSet<Name>, name: &Name) -> bool
    ensures { result ≡ is_among names.now.keys name.now }
{
    names.contains(name)
}

/// One more name, where the names lack it.
pub fn add_name(names: &mut IndexSet<Name>, name: Name) -> Result<(), Memory>
    ensures { OnOk result (names.new.keys ≡ with_name names.old.keys name) }
{
    names.insert(name)?;
    Ok(())
}

/// No names.
pub fn no_names(alloc: Global) -> IndexSet<Name>
    ensures { result.keys ≡ [] }
{
    IndexSet::new(alloc)
}

/// The names, in their order.
pub fn in_order(alloc: Global, names: IndexSet<Name>) -> Result<Items<Name>, Memory>
    ensures { IfOk result (λ items. items ≡ names.keys) }
{
    Ok(Items::from_vec(names.into_iter().collect(alloc)?))
}
