//! Groups.
ghost use Rattle.std.specs.Prelude.{◌≡◌, IfOk};
ghost use Rattle.fx_algebra.specs.Answers.{patterns_of as patterns_in};

use crate::queries::{Element, Group};
use fx_terms::{Memory, Pattern};
use std::alloc::Global;

/// The triple patterns of a group, in text order. Its other elements are passed over.
pub fn patterns_of(alloc: Global, group: &Group) -> Result<Vec<Pattern>, Memory>
    ensures { IfOk result (λ patterns. patterns.items ≡ patterns_in group.now) }
{
    let mut patterns = Vec::with_capacity(alloc, group.elements.len())?;
    for element in group.elements.as_slice() {
        if let Element::Triple(pattern) = element {
            patterns.push(pattern.copy()?)?;
        }
    }
    Ok(patterns)
}
