//! Terms are written, as N-Triples writes them.
ghost use Rattle.std.specs.Prelude.{◌≡◌, ◌++◌, ◌∷◌, [], ◌<◌, ◌==◌, not, length, MatchOption};
ghost use Rattle.std.specs.String.{string_bytes};
ghost use Rattle.std.specs.List.{flat_map};
ghost use Rattle.fx_terms.specs.Writing as spec;
ghost use Rattle.fx_terms.specs.Answers.{Grows};
ghost use Rattle.std.specs.Str.{bytes_eq};
ghost use Rattle.fx_terms.specs.Datatypes.{xsd_string};

use crate::allocation::Memory;
use crate::datatypes::XSD_STRING;
use crate::iris::Iri;
use crate::literals::Literal;
use crate::terms::Term;

/// An IRI between `<` and `>` is written at the end of a text.
pub fn write_iri(out: &mut String, iri: &Iri) -> Result<(), Memory>
    ensures { Grows result (string_bytes out.old) (string_bytes out.new) (spec.written_iri iri.now) }
{
    out.push('<')?;
    out.push_str(iri.text())?;
    out.push('>')?;
    Ok(())
}

/// A term is written at the end of a text, as N-Triples writes it (RDF 1.1 N-Triples, section 2): an IRI between `<` and `>`; a
/// literal as its form in quotes, in which `"`, backslash, LF and CR are written `\"`, `\\`, `\n` and `\r`, and then its tag behind
/// `@`, or its datatype behind `^^`, unless that is xsd:string. After `Memory` some part of it may stand there.
pub fn write_term(out: &mut String, term: &Term) -> Result<(), Memory>
    ensures { Grows result (string_bytes out.old) (string_bytes out.new) (spec.written_term term.now) }
{
    match term {
        Term::Iri(iri) => write_iri(out, iri),
        Term::Literal(literal) => write_literal(out, literal),
    }
}

fn write_literal(out: &mut String, literal: &Literal) -> Result<(), Memory>
    ensures { Grows result (string_bytes out.old) (string_bytes out.new) (spec.written_form literal.now.form ++ spec.written_kind literal.now) }
{
    write_form(out, literal.form())?;
    write_kind(out, literal)
}

// The tag, or the datatype.
fn write_kind(out: &mut String, literal: &Literal) -> Result<(), Memory>
    ensures { Grows result (string_bytes out.old) (string_bytes out.new) (spec.written_kind literal.now) }
{
    if has_tag(literal) {
        write_tag(out, literal.tag())
    } else if is_string(literal) {
        Ok(())
    } else {
        write_datatype(out, literal.datatype())
    }
}

fn has_tag(literal: &Literal) -> bool
    ensures { result ≡ not (length literal.now.tag == 0) }
{
    !literal.tag().is_empty()
}

fn is_string(literal: &Literal) -> bool
    ensures { result ≡ bytes_eq literal.now.datatype xsd_string }
{
    literal.datatype().text() == XSD_STRING
}

fn write_tag(out: &mut String, tag: &str) -> Result<(), Memory>
    ensures { Grows result (string_bytes out.old) (string_bytes out.new) (64 ∷ tag.now) }
{
    out.push('@')?;
    out.push_str(tag)?;
    Ok(())
}

fn write_datatype(out: &mut String, datatype: &Iri) -> Result<(), Memory>
    ensures { Grows result (string_bytes out.old) (string_bytes out.new) (94 ∷ 94 ∷ spec.written_iri datatype.now) }
{
    out.push_str("^^")?;
    write_iri(out, datatype)
}

fn write_form(out: &mut String, form: &str) -> Result<(), Memory>
    ensures { Grows result (string_bytes out.old) (string_bytes out.new) (spec.written_form form.now) }
{
    out.push('"')?;
    write_escaped(out, form)?;
    out.push('"')?;
    Ok(())
}

// A form with its escapes. What stands between two of them is written at once.
fn write_escaped(out: &mut String, form: &str) -> Result<(), Memory>
    ensures { Grows result (string_bytes out.old) (string_bytes out.new) (flat_map spec.written_byte form.now) }
{
    let mut from = 0;
    for (i, b) in form.as_bytes().iter().enumerate() {
        if let Some(escape) = escape_of(*b) {
            out.push_str(&form[from..i])?;
            out.push_str(escape)?;
            from = i + 1;
        }
    }
    out.push_str(&form[from..])?;
    Ok(())
}

fn escape_of(b: u8) -> Option<&'static str>
    ensures { MatchOption result (spec.written_byte b ≡ b ∷ []) (λ s. (spec.written_byte b ≡ s.now) × (b < 128)) }
{
    match b {
        b'"' => Some("\\\""),
        b'\\' => Some("\\\\"),
        b'\n' => Some("\\n"),
        b'\r' => Some("\\r"),
        _ => None,
    }
}
