//! A law of results documents: which answer a document tells, by its members.
//!
//! Nothing here is called: the function is a law of the definitions in `fx_results`, which is its contract.
#![tactic(auto)]

ghost use Rattle.fx_laws_results.specs.Told.{DocumentsTellByTheirMembers};

/// Bytes are read as an answer exactly where they are the UTF-8 of a JSON value that has the members which the layout asks of that answer. It has
/// them by name, so their order is of no matter, and neither is any member that the layout doesn't name.
pub fn documents_tell_by_their_members()
    ensures { DocumentsTellByTheirMembers }
{}
