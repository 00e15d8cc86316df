//! The terms of values.
ghost use Rattle.std.specs.Prelude.{◌≡◌, [], false, IfOk, Ok};
ghost use Rattle.std.specs.Str.{bytes_eq};
ghost use Rattle.fx_terms.specs.Iris.{read_iri};
ghost use Rattle.fx_terms.specs.Datatypes.{lang_string};
ghost use Rattle.fx_terms.specs.declared.terms.Term.TheVariants as term;
ghost use Rattle.fx_algebra.specs.Values as spec;

use fx_terms::datatypes::{XSD_BOOLEAN, XSD_INTEGER};
use fx_terms::{Iri, Literal, LiteralError, Memory, Term};
use itoa::Buffer;
use std::alloc::Global;

/// The literal of a truth value.
#[tactic(auto, unfolding(fx_algebra::specs::Values::boolean))]
pub(crate) fn boolean(alloc: Global, truth: bool) -> Result<Term, Memory>
    ensures { IfOk result (λ t. t ≡ spec.boolean truth) }
{
    typed(alloc, truth_form(truth), XSD_BOOLEAN)
}

fn truth_form(truth: bool) -> &'static str
    ensures { result.now ≡ spec.truth_form truth }
{
    if truth { "true" } else { "false" }
}

/// The literal of an integer, in plain decimal.
#[tactic(auto, unfolding(fx_algebra::specs::Values::integer))]
pub(crate) fn integer(alloc: Global, number: i64) -> Result<Term, Memory>
    ensures { IfOk result (λ t. t ≡ spec.integer number) }
{
    let mut buffer = Buffer::new();
    typed(alloc, buffer.format(number), XSD_INTEGER)
}

/// The literal of a string.
#[tactic(auto, unfolding(fx_algebra::specs::Values::string))]
pub(crate) fn string(alloc: Global, form: &str) -> Result<Term, Memory>
    ensures { IfOk result (λ t. t ≡ spec.string form.now) }
{
    Ok(Term::Literal(Literal::plain(alloc, form)?))
}

fn typed(alloc: Global, form: &str, datatype: &str) -> Result<Term, Memory>
    requires iri { read_iri datatype.now ≡ Ok datatype.now }
    requires untagged { bytes_eq datatype.now lang_string ≡ false }
    ensures { IfOk result (λ t. t ≡ term.Literal (record { form = form.now; datatype = datatype.now; tag = [] })) }
{
    let datatype = Iri::known(alloc, datatype)?;
    match Literal::typed(alloc, form, &datatype) {
        Ok(literal) => Ok(Term::Literal(literal)),
        Err(LiteralError::Memory) => Err(Memory),
        Err(_) => unreachable!(),
    }
}
