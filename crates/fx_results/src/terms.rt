//! The data of a term.
ghost use Rattle.std.specs.Prelude.{◌≡◌, ◌∷◌, [], ◌++◌, OnOk};
ghost use Rattle.json.specs.Token.{key, string};
ghost use Rattle.fx_terms.specs.Literals.{IsLiteral};
ghost use Rattle.fx_terms.specs.Terms.{IsTerm};
ghost use Rattle.fx_results.specs.Documents as spec;
ghost use Rattle.fx_results.specs.Tokens.{data_tokens};

use fx_terms::datatypes::XSD_STRING;
use fx_terms::{Literal, Term};
use json::Writer;
use std::alloc::AllocError;

pub(crate) fn write_term(text: &mut Writer, term: &Term) -> Result<(), AllocError>
    ensures tokens { OnOk result (text.new.tokens ≡ text.old.tokens ++ data_tokens (spec.term_data term.now)) }
    ensures before { OnOk result (text.new.before ≡ text.old.before) }
    ensures known { OnOk result (IsTerm term.now) }
{
    match term {
        Term::Iri(iri) => write_iri(text, iri.text()),
        Term::Literal(literal) => write_literal(text, literal),
    }
}

fn write_literal(text: &mut Writer, literal: &Literal) -> Result<(), AllocError>
    ensures tokens { OnOk result (text.new.tokens ≡ text.old.tokens ++ data_tokens (spec.literal_data literal.now)) }
    ensures before { OnOk result (text.new.before ≡ text.old.before) }
    ensures known { OnOk result (IsLiteral literal.now) }
{
    if literal.tag().is_empty() {
        write_untagged(text, literal.form(), literal.datatype().text())
    } else {
        write_tagged(text, literal.form(), literal.tag())
    }
}

fn write_untagged(text: &mut Writer, form: &str, datatype: &str) -> Result<(), AllocError>
    ensures tokens { OnOk result (text.new.tokens ≡ text.old.tokens ++ data_tokens (spec.untagged_data form.now datatype.now)) }
    ensures before { OnOk result (text.new.before ≡ text.old.before) }
{
    if datatype == XSD_STRING {
        write_plain(text, form)
    } else {
        write_typed(text, form, datatype)
    }
}

fn write_iri(text: &mut Writer, iri: &str) -> Result<(), AllocError>
    ensures tokens { OnOk result (text.new.tokens ≡ text.old.tokens ++ data_tokens (spec.iri_data iri.now)) }
    ensures before { OnOk result (text.new.before ≡ text.old.before) }
{
    text.begin_object()?;
    write_member(text, "type", "uri")?;
    write_member(text, "value", iri)?;
    text.end_object()
}

fn write_plain(text: &mut Writer, form: &str) -> Result<(), AllocError>
    ensures tokens { OnOk result (text.new.tokens ≡ text.old.tokens ++ data_tokens (spec.plain_data form.now)) }
    ensures before { OnOk result (text.new.before ≡ text.old.before) }
{
    text.begin_object()?;
    write_member(text, "type", "literal")?;
    write_member(text, "value", form)?;
    text.end_object()
}

fn write_tagged(text: &mut Writer, form: &str, tag: &str) -> Result<(), AllocError>
    ensures tokens { OnOk result (text.new.tokens ≡ text.old.tokens ++ data_tokens (spec.tagged_data form.now tag.now)) }
    ensures before { OnOk result (text.new.before ≡ text.old.before) }
{
    text.begin_object()?;
    write_member(text, "type", "literal")?;
    write_member(text, "value", form)?;
    write_member(text, "xml:lang", tag)?;
    text.end_object()
}

fn write_typed(text: &mut Writer, form: &str, datatype: &str) -> Result<(), AllocError>
    ensures tokens { OnOk result (text.new.tokens ≡ text.old.tokens ++ data_tokens (spec.typed_data form.now datatype.now)) }
    ensures before { OnOk result (text.new.before ≡ text.old.before) }
{
    text.begin_object()?;
    write_member(text, "datatype", datatype)?;
    write_member(text, "type", "literal")?;
    write_member(text, "value", form)?;
    text.end_object()
}

fn write_member(text: &mut Writer, name: &str, value: &str) -> Result<(), AllocError>
    ensures tokens { OnOk result (text.new.tokens ≡ text.old.tokens ++ key name.now ∷ string value.now ∷ []) }
    ensures before { OnOk result (text.new.before ≡ text.old.before) }
{
    text.key(name)?;
    text.string(value)
}
