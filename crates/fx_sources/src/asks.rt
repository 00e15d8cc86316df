//! The texts of ASKs for keys.
ghost use Rattle.std.specs.Prelude.{◌≡◌, IfOk, string_bytes};
ghost use Rattle.fx_sources.specs.Sources as sources;

use fx_algebra::{Element, Form, Group, Query};
use fx_keys::AskKey;
use fx_print::print;
use fx_terms::{Items, Memory, Pattern};
use std::alloc::Global;

/// The text that asks whether a key fits: the printed query `ASK WHERE { t . }`, where t is the key.
pub fn ask_text(alloc: Global, key: &AskKey) -> Result<String, Memory>
    ensures { IfOk result (λ text. string_bytes text ≡ sources.ask_text key.now.pattern) }
{
    let query = ask_query(alloc, key.pattern.get())?;
    print(alloc, &query)
}

fn ask_query(alloc: Global, pattern: &Pattern) -> Result<Query, Memory>
    ensures { IfOk result (λ query. query ≡ sources.ask_query pattern.now) }
{
    let mut elements = Items::new(alloc);
    elements.push(Element::Triple(pattern.copy()?))?;
    Ok(Query {
        form: Form::Ask,
        group: Group { elements },
        order: Items::new(alloc),
        offset: 0,
        limit: None,
        inline: None,
    })
}
