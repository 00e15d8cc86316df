//! Where the branch of a column stands.

use crate::branches::Branch;
use fx_terms::{Memory, Name};
use std::alloc::Global;
use std::collections::BTreeMap;

/// For each column of a batch, which of the branches has it. No contract rests on it: it says where to look first.
#[derive(Drop)]
pub(crate) struct Columns {
    places: BTreeMap<Name, usize>,
}

impl Columns {
    /// Of branches.
    pub fn of(alloc: Global, branches: &[Branch]) -> Result<Columns, Memory> {
        let mut places = BTreeMap::new(alloc);
        for place in 0..branches.len() {
            add_columns(&mut places, place, &branches[place])?;
        }
        Ok(Columns { places })
    }

    /// Which branch has a column.
    pub fn place(&self, column: &Name) -> Option<usize> {
        self.places.get(column).copied()
    }
}

fn add_columns(
    places: &mut BTreeMap<Name, usize>,
    place: usize,
    branch: &Branch,
) -> Result<(), Memory> {
    if let Some(name) = &branch.checked {
        places.insert(name.copy()?, place)?;
    }
    for pair in branch.sent.as_slice() {
        places.insert(pair.0.copy()?, place)?;
    }
    Ok(())
}
