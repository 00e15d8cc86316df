//! The columns of a table that is read.
ghost use Rattle.std.specs.Prelude.{◌≡◌, ◌++◌, ◌∷◌, [], not, IfOk, IsTrue, Some, None, if◌then◌else◌};
ghost use Rattle.std.specs.Option.{option_copied, ok_or};
ghost use Rattle.serde_json.specs.View.{view, items_view};
ghost use Rattle.fx_algebra.specs.Scopes.{is_among};
ghost use Rattle.fx_results.specs.Answers.{AnswersResults};
ghost use Rattle.fx_results.specs.Columns.{IsIndex};
ghost use Rattle.fx_results.specs.Reading as spec;
ghost use Rattle.fx_results.specs.declared.faults.ResultsError.TheVariants as error;
ghost use Rattle.fx_results.specs.declared.faults.ShapeFault.TheVariants as fault;

use crate::faults::{ResultsError, ShapeFault};
use fx_terms::{Memory, Name, NameError};
use indexmap::IndexMap;
use serde_json::Value;
use std::alloc::Global;
use std::marker::Model;

/// Distinct names, which are found by their texts. Contracts see the names in their order.
#[derive(Drop)]
pub(crate) struct Columns {
    names: Vec<Name>,
    index: IndexMap<String, Name>,
}

impl Model for Columns {
    ghost use Rattle.std.specs.Prelude.{List, ℕ};
    ghost use Rattle.fx_results.specs.Columns.{IsIndex};

    ghost Value = { List (List ℕ) };

    ghost view = { λ c. c.names.items };

    ghost invariant = { λ c. IsIndex c.index.entries c.names.items };
}

impl Columns {
    /// The names that the items of an array are.
    pub(crate) fn read(alloc: Global, items: &[Value]) -> Result<Columns, ResultsError>
        ensures { AnswersResults result (ok_or (spec.columns_of (items_view items.now)) (error.Shape fault.Columns)) }
    {
        let mut names = Vec::new(alloc);
        let mut index = IndexMap::new(alloc);
        for item in items {
            let name = name_of(alloc, item)?;
            let is_new = add(alloc, &mut names, &mut index, name)?;
            if !is_new {
                return Err(no_columns());
            }
        }
        Ok(Columns { names, index })
    }

    /// The name of a text, where it is one of these.
    pub(crate) fn find(&self, text: &str) -> Option<&Name>
        ensures { option_copied result ≡ (if is_among self.now text.now then Some text.now else None) }
    {
        self.index.get(text)
    }

    /// The names in their order.
    pub(crate) fn into_names(self) -> Vec<Name>
        ensures { result.items ≡ self }
    {
        let Columns { names, index: _ } = self;
        names
    }
}

// Puts a name into the index, and behind the others where it is new.
fn add(
    alloc: Global,
    names: &mut Vec<Name>,
    index: &mut IndexMap<String, Name>,
    name: Name,
) -> Result<bool, Memory>
    requires { IsIndex index.old.entries names.old.items }
    ensures new { IfOk result (λ is_new. is_new ≡ not (is_among names.old.items name)) }
    ensures put { IfOk result (λ is_new. IsTrue is_new → names.new.items ≡ names.old.items ++ name ∷ []) }
    ensures found { IfOk result (λ is_new. IsTrue is_new → IsIndex index.new.entries names.new.items) }
{
    let text = String::from_str(alloc, name.text())?;
    let stood = index.insert(text, name.copy()?)?.is_some();
    if stood {
        return Ok(false);
    }
    names.push(name)?;
    Ok(true)
}

fn no_columns() -> ResultsError
    ensures { result ≡ error.Shape fault.Columns }
{
    ResultsError::Shape {
        what: ShapeFault::Columns,
    }
}

fn name_of(alloc: Global, value: &Value) -> Result<Name, ResultsError>
    ensures { AnswersResults result (ok_or (spec.name_in (view value.now)) (error.Shape fault.Columns)) }
{
    let Some(text) = value.as_str() else {
        return Err(no_columns());
    };
    match Name::read(alloc, text) {
        Ok(name) => Ok(name),
        Err(NameError::BadName) => Err(no_columns()),
        Err(NameError::Memory) => Err(ResultsError::Memory),
    }
}
