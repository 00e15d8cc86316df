//! The printer: the text of a query.
#![tactic(auto)]

ghost use Rattle.std.specs.Prelude.{◌≡◌, IfOk, string_bytes};
ghost use Rattle.fx_algebra.specs.Printed as spec;

pub mod expressions;
pub mod groups;
mod queries;
pub mod words;

use crate::groups::push_element;
use crate::queries::push_query;
use crate::words::without_the_first_space;
use fx_algebra::{Element, Query};
use fx_terms::Memory;
use std::alloc::Global;

/// The text of a query: words with one space between, keywords in upper case but for `isIRI`, `isLITERAL`, `isBLANK`,
/// `isNUMERIC` and `sameTerm`, each mark a word of its own, terms as N-Triples writes them, and brackets exactly where the
/// grammar of SPARQL 1.1 (section 19.8) needs them.
pub fn print(alloc: Global, query: &Query) -> Result<String, Memory>
    ensures { IfOk result (λ text. string_bytes text ≡ spec.printed_query query.now) }
{
    let mut text = String::new(alloc);
    push_query(&mut text, query)?;
    without_the_first_space(alloc, text)
}

/// The text of one element of a group, as it stands in the text of a query.
pub fn print_element(alloc: Global, element: &Element) -> Result<String, Memory>
    ensures { IfOk result (λ text. string_bytes text ≡ spec.printed_element element.now) }
{
    let mut text = String::new(alloc);
    push_element(&mut text, element)?;
    without_the_first_space(alloc, text)
}
