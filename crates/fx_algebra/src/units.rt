//! The parts of a run of triple patterns that are asked for at once, and the rows between them.
ghost use Rattle.std.specs.Prelude.{◌≡◌, IfOk};

use crate::expressions::Expr;
use crate::solutions::Solution;
use fx_terms::{Items, Memory, Pattern};
use std::alloc::Global;

/// Triple patterns that are asked for by one text, with the filters that go along, and the members that are asked, by their
/// numbers. It is a group where its patterns are all that this one member alone has.
#[derive(Drop)]
pub struct Unit {
    pub patterns: Items<Pattern>,
    pub filters: Items<Expr>,
    pub members: Items<u32>,
    pub group: bool,
}

/// A row between two units: a solution, and the number of the input row of the run that it comes from.
#[derive(Drop)]
pub struct Row {
    pub origin: u64,
    pub solution: Solution,
}

impl Unit {
    /// An equal unit, which shares the texts.
    pub fn copy(&self, alloc: Global) -> Result<Unit, Memory>
        ensures { IfOk result (λ copy. copy ≡ self.now) }
    {
        Ok(Unit {
            patterns: copy_patterns(alloc, self.patterns.as_slice())?,
            filters: copy_filters(alloc, self.filters.as_slice())?,
            members: copy_members(alloc, self.members.as_slice())?,
            group: self.group,
        })
    }
}

impl Row {
    /// An equal row, which shares the texts.
    pub fn copy(&self, alloc: Global) -> Result<Row, Memory>
        ensures { IfOk result (λ copy. copy ≡ self.now) }
    {
        Ok(Row {
            origin: self.origin,
            solution: self.solution.copy(alloc)?,
        })
    }
}

/// Equal patterns, which share the texts.
pub fn copy_patterns(alloc: Global, patterns: &[Pattern]) -> Result<Items<Pattern>, Memory>
    ensures { IfOk result (λ copies. copies ≡ patterns.now) }
{
    let mut copies = Items::new(alloc);
    for pattern in patterns {
        copies.push(pattern.copy()?)?;
    }
    Ok(copies)
}

/// Equal filters, which share the texts.
pub fn copy_filters(alloc: Global, filters: &[Expr]) -> Result<Items<Expr>, Memory>
    ensures { IfOk result (λ copies. copies ≡ filters.now) }
{
    let mut copies = Items::new(alloc);
    for filter in filters {
        copies.push(filter.copy(alloc)?)?;
    }
    Ok(copies)
}

fn copy_members(alloc: Global, members: &[u32]) -> Result<Items<u32>, Memory>
    ensures { IfOk result (λ copies. copies ≡ members.now) }
{
    let mut copies = Items::new(alloc);
    for member in members {
        copies.push(*member)?;
    }
    Ok(copies)
}
