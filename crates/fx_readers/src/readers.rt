//! What stands at the front of the tokens that are left.
ghost use Rattle.std.specs.Prelude.{◌≡◌, ◌++◌, IfOk, length, None, Some, string_bytes, true, false, Ok};
ghost use Rattle.std.specs.Str.{bytes_eq};
ghost use Rattle.fx_terms.specs.Iris.{read_iri};
ghost use Rattle.fx_terms.specs.Datatypes.{lang_string};
ghost use Rattle.fx_terms.specs.Literals.{plain, is_tag};
ghost use Rattle.fx_terms.specs.declared.terms.Term.TheVariants as Term;
ghost use Rattle.fx_grammar.specs.Kinds as kinds;
ghost use Rattle.fx_grammar.specs.Rule as rule;
ghost use Rattle.fx_grammar.specs.Grammar as grammar;
ghost use Rattle.fx_readers.specs.Gives.{Gives};

use crate::faults::Fault;
use crate::prefixes::Prefixes;
use fx_algebra::{Compare, Function};
use fx_grammar::{Annotation, Kind, SyntaxKind, Text, Token, is};
use fx_terms::datatypes::{LANG_STRING, XSD_BOOLEAN, XSD_INTEGER};
use fx_terms::{Boxed, Iri, Literal, LiteralError, Memory, Name, Term, TermError, is_tag};
use std::alloc::{AllocError, Global};

/// The next token is of this kind.
pub fn sees(tokens: &[Token], kind: Kind) -> bool
    ensures { result ≡ rule.sees (kinds.is kind) tokens.now }
{
    match tokens {
        [first, ..] => is(kind, first.kind()),
        [] => false,
    }
}

/// Why a token is refused that may not stand where it stands.
fn why_of(why: SyntaxKind, kind: Kind) -> SyntaxKind
    ensures { result ≡ rule.why_of why kind }
{
    if is(Kind::TooDeep, kind) {
        SyntaxKind::TooDeep
    } else if is(Kind::Relative, kind) {
        SyntaxKind::RelativeIri
    } else if is(Kind::InnerService, kind) {
        SyntaxKind::Unsupported
    } else {
        why
    }
}

/// The refusal of the next token.
pub fn refuse(why: SyntaxKind, tokens: &[Token]) -> Fault
    ensures { result ≡ Fault.Refused (rule.why_at why tokens.now) (length tokens.now) }
{
    let why = match tokens {
        [first, ..] => why_of(why, first.kind()),
        [] => why,
    };
    Fault::Refused {
        why,
        left: tokens.len(),
    }
}

/// The tokens behind one of this kind.
pub fn mark(tokens: &[Token], kind: Kind) -> Result<&[Token], Fault>
    ensures { Gives (λ x. (tt, x.now)) result ((rule.token kind).read tokens.now) }
{
    match tokens {
        [first, rest @ ..] => {
            if is(kind, first.kind()) {
                Ok(rest)
            } else {
                Err(refuse(SyntaxKind::Unexpected, tokens))
            }
        }
        [] => Err(refuse(SyntaxKind::Unexpected, tokens)),
    }
}

/// A token of this kind is refused, though SPARQL 1.1 has it here.
pub fn lacks(tokens: &[Token], kind: Kind) -> Result<(), Fault>
    ensures { Gives (λ x. (None, tokens.now)) result ((rule.opt (rule.refusing {A = Unit {0}} SyntaxKind.Unsupported (kinds.is kind))).read tokens.now) }
{
    if sees(tokens, kind) {
        Err(refuse(SyntaxKind::Unsupported, tokens))
    } else {
        Ok(())
    }
}

/// The name of a variable.
#[tactic(auto, unfolding(fx_grammar::specs::Grammar::variable))]
pub fn variable(tokens: &[Token]) -> Result<(Name, &[Token]), Fault>
    ensures { Gives (λ x. (x.0, x.1.now)) result (grammar.variable.read tokens.now) }
{
    match tokens {
        [Token::Variable(name), rest @ ..] => Ok((name.copy()?, rest)),
        _ => Err(refuse(SyntaxKind::Unexpected, tokens)),
    }
}

/// Whether IRIs may be named by a token of a kind.
pub fn is_iri_name(kind: Kind) -> bool
    ensures { result ≡ grammar.is_iri_name kind }
{
    is(Kind::Iri, kind) || is(Kind::PrefixName, kind)
}

/// The next token names an IRI.
pub fn sees_iri_name(tokens: &[Token]) -> bool
    ensures { result ≡ rule.sees grammar.is_iri_name tokens.now }
{
    match tokens {
        [first, ..] => is_iri_name(first.kind()),
        [] => false,
    }
}

fn expanded(alloc: Global, base: &Iri, local: &Text) -> Result<Result<Iri, SyntaxKind>, Memory>
    ensures { IfOk result (λ r. r ≡ grammar.expanded (Some base.now) local.now) }
{
    let text = joined(alloc, base.text(), local.as_str())?;
    match Iri::read(alloc, text.as_str()) {
        Ok(iri) => Ok(Ok(iri)),
        Err(TermError::Memory) => Err(Memory),
        Err(_) => Ok(Err(SyntaxKind::RelativeIri)),
    }
}

fn joined(alloc: Global, first: &str, second: &str) -> Result<String, AllocError>
    ensures { IfOk result (λ s. string_bytes s ≡ first.now ++ second.now) }
{
    let mut text = String::from_str(alloc, first)?;
    text.push_str(second)?;
    Ok(text)
}

/// The IRI that a token names.
fn named_by(
    alloc: Global,
    token: &Token,
    prefixes: &Prefixes,
) -> Result<Result<Iri, SyntaxKind>, Memory>
    ensures { IfOk result (λ r. r ≡ grammar.named_by prefixes.now token.now) }
{
    match token {
        Token::Iri(iri) => Ok(Ok(iri.copy()?)),
        Token::PrefixName { prefix, local } => match prefixes.find(prefix) {
            Some(base) => expanded(alloc, base, local),
            None => Ok(Err(SyntaxKind::UnknownPrefix)),
        },
        _ => Ok(Err(SyntaxKind::Unexpected)),
    }
}

/// An IRI, as it stands or by a name with a prefix.
#[tactic(auto, unfolding(fx_grammar::specs::Grammar::iri_name))]
pub fn iri_name<'a>(
    alloc: Global,
    tokens: &'a [Token],
    prefixes: &Prefixes,
) -> Result<(Iri, &'a [Token]), Fault>
    ensures { Gives (λ x. (x.0, x.1.now)) result ((grammar.iri_name prefixes.now).read tokens.now) }
{
    let [first, rest @ ..] = tokens else {
        return Err(refuse(SyntaxKind::Unexpected, tokens));
    };
    if !is_iri_name(first.kind()) {
        return Err(refuse(SyntaxKind::Unexpected, tokens));
    }
    match named_by(alloc, first, prefixes)? {
        Ok(iri) => Ok((iri, rest)),
        Err(why) => Err(refuse(why, tokens)),
    }
}

fn is_lang_string(iri: &Iri) -> bool
    ensures { result ≡ bytes_eq iri.now lang_string }
{
    iri.text() == LANG_STRING
}

fn not_lang_string(named: Result<Iri, SyntaxKind>) -> Result<Iri, SyntaxKind>
    ensures { result ≡ grammar.not_lang_string named }
{
    let iri = named?;
    if is_lang_string(&iri) {
        Err(SyntaxKind::BadLiteral)
    } else {
        Ok(iri)
    }
}

/// The datatype of a literal, in an expression or elsewhere.
#[tactic(auto, unfolding(fx_grammar::specs::Grammar::datatype))]
fn datatype<'a>(
    alloc: Global,
    tokens: &'a [Token],
    prefixes: &Prefixes,
) -> Result<(Iri, &'a [Token]), Fault>
    ensures reads { Gives (λ x. (x.0, x.1.now)) result ((grammar.datatype prefixes.now).read tokens.now) }
    ensures other { IfOk result (λ x. bytes_eq x.0 lang_string ≡ false) }
{
    let [first, rest @ ..] = tokens else {
        return Err(refuse(SyntaxKind::Unexpected, tokens));
    };
    if !is_iri_name(first.kind()) {
        return Err(refuse(SyntaxKind::Unexpected, tokens));
    }
    match not_lang_string(named_by(alloc, first, prefixes)?) {
        Ok(iri) => Ok((iri, rest)),
        Err(why) => Err(refuse(why, tokens)),
    }
}

#[tactic(auto, unfolding(fx_grammar::specs::Grammar::no_call))]
fn datatype_in<'a>(
    alloc: Global,
    tokens: &'a [Token],
    prefixes: &Prefixes,
    in_expression: bool,
) -> Result<(Iri, &'a [Token]), Fault>
    ensures reads { Gives (λ x. (x.0, x.1.now)) result ((grammar.datatype_in in_expression prefixes.now).read tokens.now) }
    ensures other { IfOk result (λ x. bytes_eq x.0 lang_string ≡ false) }
{
    let (iri, rest) = datatype(alloc, tokens, prefixes)?;
    if in_expression {
        lacks(rest, Kind::LeftParen)?;
    }
    Ok((iri, rest))
}

fn text(tokens: &[Token]) -> Result<(&Text, &[Token]), Fault>
    ensures { Gives (λ x. (x.0.now, x.1.now)) result ((rule.one (kinds.is Kind.Text) grammar.text_of).read tokens.now) }
{
    match tokens {
        [Token::Text(text), rest @ ..] => Ok((text, rest)),
        _ => Err(refuse(SyntaxKind::Unexpected, tokens)),
    }
}

fn tag(tokens: &[Token]) -> Result<(Text, &[Token]), Fault>
    ensures reads { Gives (λ x. (x.0, x.1.now)) result ((rule.one (kinds.is Kind.Tag) grammar.tag_of).read tokens.now) }
    ensures tag { IfOk result (λ x. is_tag x.0 ≡ true) }
{
    match tokens {
        [Token::Tag(tag), rest @ ..] => {
            if is_tag(tag.as_str()) {
                Ok((tag.copy()?, rest))
            } else {
                Err(refuse(SyntaxKind::Unexpected, tokens))
            }
        }
        _ => Err(refuse(SyntaxKind::Unexpected, tokens)),
    }
}

/// What stands behind a text that is a literal's form, where something does.
#[tactic(auto, unfolding(fx_grammar::specs::Grammar::text_suffix))]
fn text_suffix<'a>(
    alloc: Global,
    tokens: &'a [Token],
    prefixes: &Prefixes,
    in_expression: bool,
) -> Result<(Option<Annotation>, &'a [Token]), Fault>
    ensures reads { Gives (λ x. (x.0, x.1.now)) result ((rule.opt (grammar.text_suffix (grammar.datatype_in in_expression prefixes.now))).read tokens.now) }
    ensures is { IfOk result (λ x. grammar.IsAnnotation x.0) }
{
    if sees(tokens, Kind::Tag) {
        let (tag, rest) = tag(tokens)?;
        return Ok((Some(Annotation::Tag(tag)), rest));
    }
    if sees(tokens, Kind::CaretCaret) {
        let rest = mark(tokens, Kind::CaretCaret)?;
        let (iri, rest) = datatype_in(alloc, rest, prefixes, in_expression)?;
        return Ok((Some(Annotation::Datatype(iri)), rest));
    }
    Ok((None, tokens))
}

fn annotated(
    alloc: Global,
    text: &Text,
    annotation: Option<Annotation>,
) -> Result<Boxed<Term>, Memory>
    requires { grammar.IsAnnotation annotation }
    ensures { IfOk result (λ t. t ≡ grammar.annotated text.now annotation) }
{
    match annotation {
        None => bare(alloc, text.as_str()),
        Some(Annotation::Tag(tag)) => with_tag(alloc, text.as_str(), tag.as_str()),
        Some(Annotation::Datatype(iri)) => with_datatype(alloc, text.as_str(), &iri),
    }
}

fn bare(alloc: Global, form: &str) -> Result<Boxed<Term>, Memory>
    ensures { IfOk result (λ t. t ≡ Term.Literal (plain form.now)) }
{
    let literal = Literal::plain(alloc, form)?;
    Ok(Boxed::new(alloc, Term::Literal(literal))?)
}

fn with_tag(alloc: Global, form: &str, tag: &str) -> Result<Boxed<Term>, Memory>
    requires { is_tag tag.now ≡ true }
    ensures { IfOk result (λ t. t ≡ Term.Literal (grammar.tagged_parts form.now tag.now)) }
{
    match Literal::tagged(alloc, form, tag) {
        Ok(literal) => Ok(Boxed::new(alloc, Term::Literal(literal))?),
        Err(LiteralError::Memory) => Err(Memory),
        Err(_) => unreachable!(),
    }
}

fn with_datatype(alloc: Global, form: &str, datatype: &Iri) -> Result<Boxed<Term>, Memory>
    requires { bytes_eq datatype.now lang_string ≡ false }
    ensures { IfOk result (λ t. t ≡ Term.Literal (grammar.typed_parts form.now datatype.now)) }
{
    match Literal::typed(alloc, form, datatype) {
        Ok(literal) => Ok(Boxed::new(alloc, Term::Literal(literal))?),
        Err(LiteralError::Memory) => Err(Memory),
        Err(_) => unreachable!(),
    }
}

/// A literal of xsd:integer.
fn integer(alloc: Global, digits: &Text) -> Result<Boxed<Term>, Memory>
    ensures { IfOk result (λ t. t ≡ grammar.integer digits.now) }
{
    constant(alloc, digits.as_str(), XSD_INTEGER)
}

/// A literal of xsd:boolean.
fn truth(alloc: Global, form: &str) -> Result<Boxed<Term>, Memory>
    ensures { IfOk result (λ t. t ≡ Term.Literal (grammar.typed_parts form.now grammar.xsd_boolean)) }
{
    constant(alloc, form, XSD_BOOLEAN)
}

fn constant(alloc: Global, form: &str, datatype: &str) -> Result<Boxed<Term>, Memory>
    requires iri { read_iri datatype.now ≡ Ok datatype.now }
    requires other { bytes_eq datatype.now lang_string ≡ false }
    ensures { IfOk result (λ t. t ≡ Term.Literal (grammar.typed_parts form.now datatype.now)) }
{
    let datatype = Iri::known(alloc, datatype)?;
    with_datatype(alloc, form, &datatype)
}

fn is_plain_literal(kind: Kind) -> bool
    ensures { result ≡ grammar.is_plain_literal kind }
{
    is(Kind::Integer, kind)
        || is(Kind::Signed, kind)
        || is(Kind::True, kind)
        || is(Kind::False, kind)
        || is(Kind::Decimal, kind)
}

fn literal_of(alloc: Global, token: &Token) -> Result<Result<Boxed<Term>, SyntaxKind>, Memory>
    ensures { IfOk result (λ r. r ≡ grammar.literal_of token.now) }
{
    match token {
        Token::Integer(digits) => Ok(Ok(integer(alloc, digits)?)),
        Token::Signed(digits) => Ok(Ok(integer(alloc, digits)?)),
        Token::Plain(Kind::True) => Ok(Ok(truth(alloc, "true")?)),
        Token::Plain(Kind::False) => Ok(Ok(truth(alloc, "false")?)),
        Token::Plain(Kind::Decimal) => Ok(Err(SyntaxKind::Decimal)),
        _ => Ok(Err(SyntaxKind::Unexpected)),
    }
}

fn plain_literal(alloc: Global, tokens: &[Token]) -> Result<(Boxed<Term>, &[Token]), Fault>
    ensures { Gives (λ x. (x.0, x.1.now)) result ((rule.one grammar.is_plain_literal grammar.literal_of).read tokens.now) }
{
    let [first, rest @ ..] = tokens else {
        return Err(refuse(SyntaxKind::Unexpected, tokens));
    };
    if !is_plain_literal(first.kind()) {
        return Err(refuse(SyntaxKind::Unexpected, tokens));
    }
    match literal_of(alloc, first)? {
        Ok(term) => Ok((term, rest)),
        Err(why) => Err(refuse(why, tokens)),
    }
}

/// The next token is one with which a literal begins, or a decimal, which is refused by name there.
pub fn sees_literal(tokens: &[Token]) -> bool
    ensures { result ≡ rule.sees grammar.begins_literal tokens.now }
{
    match tokens {
        [first, ..] => is(Kind::Text, first.kind()) || is_plain_literal(first.kind()),
        [] => false,
    }
}

/// A literal, in an expression or elsewhere.
#[tactic(auto, unfolding(fx_grammar::specs::Grammar::literal))]
pub fn literal<'a>(
    alloc: Global,
    tokens: &'a [Token],
    prefixes: &Prefixes,
    in_expression: bool,
) -> Result<(Boxed<Term>, &'a [Token]), Fault>
    ensures { Gives (λ x. (x.0, x.1.now)) result ((grammar.literal (grammar.datatype_in in_expression prefixes.now)).read tokens.now) }
{
    if sees(tokens, Kind::Text) {
        let (form, rest) = text(tokens)?;
        let (annotation, rest) = text_suffix(alloc, rest, prefixes, in_expression)?;
        return Ok((annotated(alloc, form, annotation)?, rest));
    }
    plain_literal(alloc, tokens)
}

/// A sign and digits, as a literal.
pub fn signed(alloc: Global, tokens: &[Token]) -> Result<(Boxed<Term>, &[Token]), Fault>
    ensures { Gives (λ x. (x.0, x.1.now)) result ((rule.one (kinds.is Kind.Signed) grammar.signed_of).read tokens.now) }
{
    match tokens {
        [Token::Signed(digits), rest @ ..] => Ok((integer(alloc, digits)?, rest)),
        _ => Err(refuse(SyntaxKind::Unexpected, tokens)),
    }
}

/// A comparison.
pub fn comparison(tokens: &[Token]) -> Result<(Compare, &[Token]), Fault>
    ensures { Gives (λ x. (x.0, x.1.now)) result ((rule.one (kinds.is Kind.Comparison) grammar.comparison_of).read tokens.now) }
{
    match tokens {
        [Token::Comparison(op), rest @ ..] => Ok((*op, rest)),
        _ => Err(refuse(SyntaxKind::Unexpected, tokens)),
    }
}

/// The name of a function of one expression.
pub fn one_function(tokens: &[Token]) -> Result<(Function, &[Token]), Fault>
    ensures { Gives (λ x. (x.0, x.1.now)) result ((rule.one (kinds.is Kind.One) grammar.one_of).read tokens.now) }
{
    match tokens {
        [Token::One(function), rest @ ..] => Ok((*function, rest)),
        _ => Err(refuse(SyntaxKind::Unexpected, tokens)),
    }
}

/// The name of a function of two expressions.
pub fn two_function(tokens: &[Token]) -> Result<(Function, &[Token]), Fault>
    ensures { Gives (λ x. (x.0, x.1.now)) result ((rule.one (kinds.is Kind.Two) grammar.two_of).read tokens.now) }
{
    match tokens {
        [Token::Two(function), rest @ ..] => Ok((*function, rest)),
        _ => Err(refuse(SyntaxKind::Unexpected, tokens)),
    }
}
