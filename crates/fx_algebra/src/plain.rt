//! Plain queries.
ghost use Rattle.std.specs.Prelude.{◌≡◌, ◌&&◌, is_none};
ghost use Rattle.std.specs.List.{list_all};
ghost use Rattle.fx_algebra.specs.Answers as spec;

use crate::queries::{Element, Form, Query};

/// Whether a query is plain: a SELECT without DISTINCT whose group holds triples alone, and that has neither order keys nor
/// OFFSET, LIMIT and VALUES behind it. It takes no memory.
pub fn is_plain(query: &Query) -> bool
    ensures { result ≡ spec.is_plain query.now }
{
    is_plain_form(&query.form)
        && are_triples(query.group.elements.as_slice())
        && has_no_modifiers(query)
}

// Whether neither keys nor OFFSET, LIMIT and VALUES stand behind the group.
fn has_no_modifiers(query: &Query) -> bool
    ensures { result ≡ spec.has_no_modifiers query.now }
{
    query.order.is_empty() && query.offset == 0 && has_no_end(query)
}

fn has_no_end(query: &Query) -> bool
    ensures { result ≡ (is_none query.now.limit && is_none query.now.inline) }
{
    match query.limit {
        Some(_) => false,
        None => match query.inline {
            Some(_) => false,
            None => true,
        },
    }
}

fn is_plain_form(form: &Form) -> bool
    ensures { result ≡ spec.is_plain_form form.now }
{
    match form {
        Form::Select {
            distinct,
            columns: _,
        } => !*distinct,
        Form::Ask => false,
    }
}

fn are_triples(elements: &[Element]) -> bool
    ensures { result ≡ list_all spec.is_triple elements.now }
{
    elements.iter().all(is_triple)
}

fn is_triple(element: &Element) -> bool
    ensures { result ≡ spec.is_triple element.now }
{
    matches!(element, Element::Triple(_))
}
