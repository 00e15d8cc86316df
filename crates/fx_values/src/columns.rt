//! The columns of a block.
ghost use Rattle.std.specs.Prelude.{◌≡◌, IfOk, map};
ghost use Rattle.fx_values.specs.Parts as parts;
ghost use Rattle.fx_values.specs.Values.{named};

use crate::names::{Names, number_name, sent_name};
use fx_terms::{Items, Memory, Name};
use std::alloc::Global;

/// The columns of a block: that of the rows' numbers, and the other name of each of the unit's variables beside its own.
#[derive(Drop)]
pub(crate) struct Columns {
    pub number: Name,
    pub sent: Items<(Name, Name)>,
}

impl Columns {
    /// Of the variables of a unit.
    pub fn of(alloc: Global, names: &Names) -> Result<Columns, Memory>
        ensures { IfOk result (λ columns. columns ≡ parts.columns_by (named names.now) names.now) }
    {
        let number = number_name(alloc)?;
        let sent = sent_names(alloc, names)?;
        Ok(Columns { number, sent })
    }
}

fn sent_names(alloc: Global, names: &Names) -> Result<Items<(Name, Name)>, Memory>
    ensures { IfOk result (λ sent. sent ≡ map (λ n. (named names.now n, n)) names.now) }
{
    let mut sent = Items::new(alloc);
    for name in names.as_slice() {
        sent.push(sent_pair(alloc, names, name)?)?;
    }
    Ok(sent)
}

// The other name of a variable, beside its own.
fn sent_pair(alloc: Global, names: &Names, name: &Name) -> Result<(Name, Name), Memory>
    ensures { IfOk result (λ pair. pair ≡ (named names.now name.now, name.now)) }
{
    Ok((sent_name(alloc, names.place(name))?, name.copy()?))
}
