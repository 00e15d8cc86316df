//! The terms of a row that is read.
ghost use Rattle.std.specs.Prelude.{◌≡◌, Some, None, bytes_eq, codes, option_map};
ghost use Rattle.std.specs.Option.{ok_or};
ghost use Rattle.serde_json.specs.Find.{as_str};
ghost use Rattle.serde_json.specs.View.{view};
ghost use Rattle.fx_terms.specs.Datatypes.{lang_string};
ghost use Rattle.fx_terms.specs.declared.terms.Term.TheVariants as term;
ghost use Rattle.fx_results.specs.Answers.{AnswersResults};
ghost use Rattle.fx_results.specs.Reading as spec;
ghost use Rattle.fx_results.specs.declared.faults.ResultsError.TheVariants as error;

use crate::faults::ResultsError;
use fx_terms::datatypes::LANG_STRING;
use fx_terms::{Iri, Literal, LiteralError, Term, TermError};
use serde_json::Value;
use std::alloc::Global;

pub(crate) fn term_of(alloc: Global, value: &Value) -> Result<Term, ResultsError>
    ensures { AnswersResults result (spec.term_in (view value.now)) }
{
    let Some(kind) = text_at(value, "type") else {
        return Err(ResultsError::BadTerm);
    };
    if kind == "bnode" {
        return Err(ResultsError::Blank);
    }
    known_term(alloc, kind, value)
}

fn known_term(alloc: Global, kind: &str, value: &Value) -> Result<Term, ResultsError>
    ensures { AnswersResults result (ok_or (spec.known_term kind.now (view value.now)) error.BadTerm) }
{
    if is_uri(kind) {
        iri_term(alloc, value)
    } else if is_literal(kind) {
        literal_term(alloc, value)
    } else if is_typed_literal(kind) {
        typed_term(alloc, value)
    } else {
        Err(ResultsError::BadTerm)
    }
}

fn is_uri(kind: &str) -> bool
    ensures { result ≡ bytes_eq kind.now (codes "uri") }
{
    kind == "uri"
}

fn is_literal(kind: &str) -> bool
    ensures { result ≡ bytes_eq kind.now (codes "literal") }
{
    kind == "literal"
}

fn is_typed_literal(kind: &str) -> bool
    ensures { result ≡ bytes_eq kind.now (codes "typed-literal") }
{
    kind == "typed-literal"
}

fn iri_term(alloc: Global, value: &Value) -> Result<Term, ResultsError>
    ensures { AnswersResults result (ok_or (option_map term.Iri (spec.iri_in (view value.now))) error.BadTerm) }
{
    Ok(Term::Iri(iri_in(alloc, value)?))
}

fn literal_term(alloc: Global, value: &Value) -> Result<Term, ResultsError>
    ensures { AnswersResults result (ok_or (option_map term.Literal (spec.literal_in (view value.now))) error.BadTerm) }
{
    Ok(Term::Literal(literal_in(alloc, value)?))
}

fn typed_term(alloc: Global, value: &Value) -> Result<Term, ResultsError>
    ensures { AnswersResults result (ok_or (option_map term.Literal (spec.typed_in (view value.now))) error.BadTerm) }
{
    Ok(Term::Literal(typed_in(alloc, value)?))
}

fn iri_in(alloc: Global, value: &Value) -> Result<Iri, ResultsError>
    ensures { AnswersResults result (ok_or (spec.iri_in (view value.now)) error.BadTerm) }
{
    match value.get("value") {
        Some(text) => iri_of(alloc, text),
        None => Err(ResultsError::BadTerm),
    }
}

fn iri_of(alloc: Global, value: &Value) -> Result<Iri, ResultsError>
    ensures { AnswersResults result (ok_or (spec.iri_of (view value.now)) error.BadTerm) }
{
    let Some(text) = value.as_str() else {
        return Err(ResultsError::BadTerm);
    };
    match Iri::read(alloc, text) {
        Ok(iri) => Ok(iri),
        Err(TermError::Memory) => Err(ResultsError::Memory),
        Err(TermError::Relative) => Err(ResultsError::BadTerm),
        Err(TermError::BadCharacter { place: _ }) => Err(ResultsError::BadTerm),
    }
}

// A literal that has a datatype.
fn typed_in(alloc: Global, value: &Value) -> Result<Literal, ResultsError>
    ensures { AnswersResults result (ok_or (spec.typed_in (view value.now)) error.BadTerm) }
{
    match value.get("datatype") {
        Some(_) => literal_in(alloc, value),
        None => Err(ResultsError::BadTerm),
    }
}

fn literal_in(alloc: Global, value: &Value) -> Result<Literal, ResultsError>
    ensures { AnswersResults result (ok_or (spec.literal_in (view value.now)) error.BadTerm) }
{
    let Some(form) = text_at(value, "value") else {
        return Err(ResultsError::BadTerm);
    };
    let tag = value.get("xml:lang");
    match value.get("datatype") {
        Some(datatype) => with_datatype(alloc, form, datatype, tag),
        None => without_datatype(alloc, form, tag),
    }
}

fn with_datatype(
    alloc: Global,
    form: &str,
    datatype: &Value,
    tag: Option<&Value>,
) -> Result<Literal, ResultsError>
    ensures { AnswersResults result (ok_or (spec.literal_of form.now (Some (view datatype.now)) (option_map (λ t. view t.now) tag.entry)) error.BadTerm) }
{
    match tag {
        None => typed_of(alloc, form, datatype),
        Some(tag) => {
            if is_lang_string(datatype) {
                tagged_of(alloc, form, tag)
            } else {
                Err(ResultsError::BadTerm)
            }
        }
    }
}

fn without_datatype(alloc: Global, form: &str, tag: Option<&Value>) -> Result<Literal, ResultsError>
    ensures { AnswersResults result (ok_or (spec.literal_of form.now None (option_map (λ t. view t.now) tag.entry)) error.BadTerm) }
{
    match tag {
        None => Ok(Literal::plain(alloc, form)?),
        Some(tag) => tagged_of(alloc, form, tag),
    }
}

fn typed_of(alloc: Global, form: &str, datatype: &Value) -> Result<Literal, ResultsError>
    ensures { AnswersResults result (ok_or (spec.typed_of form.now (view datatype.now)) error.BadTerm) }
{
    let datatype = iri_of(alloc, datatype)?;
    match Literal::typed(alloc, form, &datatype) {
        Ok(literal) => Ok(literal),
        Err(LiteralError::Memory) => Err(ResultsError::Memory),
        Err(LiteralError::NeedsTag) => Err(ResultsError::BadTerm),
        Err(LiteralError::BadTag) => Err(ResultsError::BadTerm),
    }
}

fn tagged_of(alloc: Global, form: &str, tag: &Value) -> Result<Literal, ResultsError>
    ensures { AnswersResults result (ok_or (spec.tagged_of form.now (view tag.now)) error.BadTerm) }
{
    let Some(tag) = tag.as_str() else {
        return Err(ResultsError::BadTerm);
    };
    match Literal::tagged(alloc, form, tag) {
        Ok(literal) => Ok(literal),
        Err(LiteralError::Memory) => Err(ResultsError::Memory),
        Err(LiteralError::NeedsTag) => Err(ResultsError::BadTerm),
        Err(LiteralError::BadTag) => Err(ResultsError::BadTerm),
    }
}

fn is_lang_string(value: &Value) -> bool
    ensures { result ≡ spec.is_text lang_string (as_str (view value.now)) }
{
    match value.as_str() {
        Some(text) => text == LANG_STRING,
        None => false,
    }
}

fn text_at<'v>(value: &'v Value, name: &str) -> Option<&'v str>
    ensures { option_map (λ text. text.now) result ≡ spec.text_at name.now (view value.now) }
{
    match value.get(name) {
        Some(member) => member.as_str(),
        None => None,
    }
}
