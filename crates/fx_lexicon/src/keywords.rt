//! Keywords and marks.
ghost use Rattle.std.specs.Prelude.{◌≡◌, IfOk, option_map};
ghost use Rattle.std.specs.Str.{bytes_eq};
ghost use Rattle.fx_grammar.specs.Keywords as spec;

use fx_algebra::{Compare, Function};
use fx_grammar::{Kind, Token};
use fx_terms::Memory;
use std::alloc::Global;

/// The token that a word is: `a` is a keyword in lower case alone, and every other keyword whatever its case.
pub fn word(alloc: Global, text: &str) -> Result<Token, Memory>
    ensures { IfOk result (λ t. t ≡ spec.word text.now) }
{
    if is_text(text.as_bytes(), b"a") {
        return Ok(Token::Plain(Kind::A));
    }
    let upper = text.to_ascii_uppercase(alloc)?;
    Ok(keyword(upper.as_bytes()))
}

/// The token that a mark is.
pub fn mark(text: &[u8]) -> Token
    ensures { result ≡ spec.mark text.now }
{
    if let Some(op) = comparison(text) {
        return Token::Comparison(op);
    }
    if let Some(kind) = first_marks(text) {
        return Token::Plain(kind);
    }
    match second_marks(text) {
        Some(kind) => Token::Plain(kind),
        None => Token::Plain(Kind::Other),
    }
}

fn keyword(text: &[u8]) -> Token
    ensures { result ≡ spec.keyword text.now }
{
    if let Some(kind) = form_word(text) {
        return Token::Plain(kind);
    }
    if let Some(kind) = group_word(text) {
        return Token::Plain(kind);
    }
    if let Some(kind) = expression_word(text) {
        return Token::Plain(kind);
    }
    call_word(text)
}

fn call_word(text: &[u8]) -> Token
    ensures { result ≡ spec.call_word text.now }
{
    if let Some(function) = one_word(text) {
        return Token::One(function);
    }
    if let Some(function) = two_word(text) {
        return Token::Two(function);
    }
    other_word(text)
}

fn other_word(text: &[u8]) -> Token
    ensures { result ≡ spec.other_word text.now }
{
    if is_other_form(text) {
        Token::Plain(Kind::OtherForm)
    } else if is_other_call(text) {
        Token::Plain(Kind::OtherCall)
    } else {
        Token::Plain(Kind::Other)
    }
}

// Functions that this profile leaves out.
fn is_other_call(text: &[u8]) -> bool
    ensures { result ≡ spec.is_other_call text.now }
{
    is_text(text, b"EXISTS")
        || is_term_call(text)
        || is_text_call(text)
        || is_number_call(text)
        || is_time_call(text)
        || is_hash_call(text)
        || is_aggregate(text)
}

fn is_text(text: &[u8], other: &[u8]) -> bool
    ensures { result ≡ bytes_eq text.now other.now }
{
    text == other
}

// The words with which a query and its modifiers begin.
fn form_word(text: &[u8]) -> Option<Kind>
    ensures { option_map Token.Plain result ≡ spec.form_word text.now }
{
    if is_text(text, b"PREFIX") {
        Some(Kind::Prefix)
    } else if is_text(text, b"SELECT") {
        Some(Kind::Select)
    } else if is_text(text, b"ASK") {
        Some(Kind::Ask)
    } else if is_text(text, b"DISTINCT") {
        Some(Kind::Distinct)
    } else if is_text(text, b"REDUCED") {
        Some(Kind::Reduced)
    } else if is_text(text, b"WHERE") {
        Some(Kind::Where)
    } else if is_text(text, b"ORDER") {
        Some(Kind::Order)
    } else if is_text(text, b"BY") {
        Some(Kind::By)
    } else if is_text(text, b"ASC") {
        Some(Kind::Asc)
    } else if is_text(text, b"DESC") {
        Some(Kind::Desc)
    } else if is_text(text, b"LIMIT") {
        Some(Kind::Limit)
    } else if is_text(text, b"OFFSET") {
        Some(Kind::Offset)
    } else {
        None
    }
}

// The words of a group.
fn group_word(text: &[u8]) -> Option<Kind>
    ensures { option_map Token.Plain result ≡ spec.group_word text.now }
{
    if is_text(text, b"UNION") {
        Some(Kind::Union)
    } else if is_text(text, b"OPTIONAL") {
        Some(Kind::Optional)
    } else if is_text(text, b"MINUS") {
        Some(Kind::Minus)
    } else if is_text(text, b"SERVICE") {
        Some(Kind::Service)
    } else if is_text(text, b"SILENT") {
        Some(Kind::Silent)
    } else if is_text(text, b"FILTER") {
        Some(Kind::Filter)
    } else if is_text(text, b"BIND") {
        Some(Kind::Bind)
    } else if is_text(text, b"AS") {
        Some(Kind::As)
    } else if is_text(text, b"VALUES") {
        Some(Kind::Values)
    } else if is_text(text, b"UNDEF") {
        Some(Kind::Undef)
    } else {
        None
    }
}

// The words of an expression.
fn expression_word(text: &[u8]) -> Option<Kind>
    ensures { option_map Token.Plain result ≡ spec.expression_word text.now }
{
    if is_text(text, b"TRUE") {
        Some(Kind::True)
    } else if is_text(text, b"FALSE") {
        Some(Kind::False)
    } else if is_text(text, b"NOT") {
        Some(Kind::Not)
    } else if is_text(text, b"IN") {
        Some(Kind::In)
    } else if is_text(text, b"BOUND") {
        Some(Kind::Bound)
    } else if is_text(text, b"COALESCE") {
        Some(Kind::Coalesce)
    } else if is_text(text, b"IF") {
        Some(Kind::If)
    } else if is_text(text, b"FROM") {
        Some(Kind::From)
    } else if is_text(text, b"GROUP") {
        Some(Kind::Grouping)
    } else if is_text(text, b"HAVING") {
        Some(Kind::Grouping)
    } else if is_text(text, b"GRAPH") {
        Some(Kind::Graph)
    } else {
        None
    }
}

// The functions of one expression.
fn one_word(text: &[u8]) -> Option<Function>
    ensures { result ≡ spec.one_word text.now }
{
    if is_text(text, b"STR") {
        Some(Function::Str)
    } else if is_text(text, b"LANG") {
        Some(Function::Lang)
    } else if is_text(text, b"DATATYPE") {
        Some(Function::Datatype)
    } else if is_text(text, b"STRLEN") {
        Some(Function::StrLen)
    } else if is_text(text, b"ISIRI") {
        Some(Function::IsIri)
    } else if is_text(text, b"ISURI") {
        Some(Function::IsIri)
    } else if is_text(text, b"ISLITERAL") {
        Some(Function::IsLiteral)
    } else if is_text(text, b"ISBLANK") {
        Some(Function::IsBlank)
    } else if is_text(text, b"ISNUMERIC") {
        Some(Function::IsNumeric)
    } else {
        None
    }
}

// The functions of two expressions.
fn two_word(text: &[u8]) -> Option<Function>
    ensures { result ≡ spec.two_word text.now }
{
    if is_text(text, b"LANGMATCHES") {
        Some(Function::LangMatches)
    } else if is_text(text, b"SAMETERM") {
        Some(Function::SameTerm)
    } else if is_text(text, b"CONTAINS") {
        Some(Function::Contains)
    } else if is_text(text, b"STRSTARTS") {
        Some(Function::StrStarts)
    } else if is_text(text, b"STRENDS") {
        Some(Function::StrEnds)
    } else {
        None
    }
}

// The marks of one character.
fn first_marks(text: &[u8]) -> Option<Kind>
    ensures { option_map Token.Plain result ≡ spec.first_marks text.now }
{
    if is_text(text, b"{") {
        Some(Kind::LeftBrace)
    } else if is_text(text, b"}") {
        Some(Kind::RightBrace)
    } else if is_text(text, b"(") {
        Some(Kind::LeftParen)
    } else if is_text(text, b")") {
        Some(Kind::RightParen)
    } else if is_text(text, b"[") {
        Some(Kind::LeftBracket)
    } else if is_text(text, b".") {
        Some(Kind::Dot)
    } else if is_text(text, b";") {
        Some(Kind::Semicolon)
    } else if is_text(text, b",") {
        Some(Kind::Comma)
    } else if is_text(text, b"*") {
        Some(Kind::Star)
    } else if is_text(text, b"/") {
        Some(Kind::Slash)
    } else {
        None
    }
}

// The other marks.
fn second_marks(text: &[u8]) -> Option<Kind>
    ensures { option_map Token.Plain result ≡ spec.second_marks text.now }
{
    if is_text(text, b"|") {
        Some(Kind::Bar)
    } else if is_text(text, b"^") {
        Some(Kind::Caret)
    } else if is_text(text, b"+") {
        Some(Kind::Plus)
    } else if is_text(text, b"-") {
        Some(Kind::Dash)
    } else if is_text(text, b"?") {
        Some(Kind::Question)
    } else if is_text(text, b"!") {
        Some(Kind::Bang)
    } else if is_text(text, b"&&") {
        Some(Kind::AndAnd)
    } else if is_text(text, b"||") {
        Some(Kind::OrOr)
    } else if is_text(text, b"^^") {
        Some(Kind::CaretCaret)
    } else {
        None
    }
}

// The comparisons.
fn comparison(text: &[u8]) -> Option<Compare>
    ensures { result ≡ spec.comparison text.now }
{
    if is_text(text, b"=") {
        Some(Compare::Equal)
    } else if is_text(text, b"!=") {
        Some(Compare::NotEqual)
    } else if is_text(text, b"<") {
        Some(Compare::Less)
    } else if is_text(text, b">") {
        Some(Compare::Greater)
    } else if is_text(text, b"<=") {
        Some(Compare::LessOrEqual)
    } else if is_text(text, b">=") {
        Some(Compare::GreaterOrEqual)
    } else {
        None
    }
}

// The words with which updates, and their parts, begin.
fn is_update_word(text: &[u8]) -> bool
    ensures { result ≡ spec.is_update_word text.now }
{
    is_text(text, b"INSERT")
        || is_text(text, b"DELETE")
        || is_text(text, b"LOAD")
        || is_text(text, b"CLEAR")
        || is_text(text, b"DROP")
        || is_text(text, b"CREATE")
        || is_text(text, b"ADD")
        || is_text(text, b"MOVE")
        || is_text(text, b"COPY")
        || is_text(text, b"WITH")
}

// The words with which other forms of query, updates and BASE begin.
fn is_other_form(text: &[u8]) -> bool
    ensures { result ≡ spec.is_other_form text.now }
{
    is_text(text, b"CONSTRUCT")
        || is_text(text, b"DESCRIBE")
        || is_text(text, b"BASE")
        || is_update_word(text)
}

// Functions that make terms (SPARQL 1.1 section 17.4.2).
fn is_term_call(text: &[u8]) -> bool
    ensures { result ≡ spec.is_term_call text.now }
{
    is_text(text, b"IRI")
        || is_text(text, b"URI")
        || is_text(text, b"BNODE")
        || is_text(text, b"STRDT")
        || is_text(text, b"STRLANG")
        || is_text(text, b"UUID")
        || is_text(text, b"STRUUID")
}

// Functions of texts (section 17.4.3).
fn is_text_call(text: &[u8]) -> bool
    ensures { result ≡ spec.is_text_call text.now }
{
    is_text(text, b"SUBSTR")
        || is_text(text, b"UCASE")
        || is_text(text, b"LCASE")
        || is_text(text, b"ENCODE_FOR_URI")
        || is_text(text, b"CONCAT")
        || is_text(text, b"STRBEFORE")
        || is_text(text, b"STRAFTER")
        || is_text(text, b"REPLACE")
        || is_text(text, b"REGEX")
}

// Functions of numbers (section 17.4.4).
fn is_number_call(text: &[u8]) -> bool
    ensures { result ≡ spec.is_number_call text.now }
{
    is_text(text, b"ABS")
        || is_text(text, b"CEIL")
        || is_text(text, b"FLOOR")
        || is_text(text, b"ROUND")
        || is_text(text, b"RAND")
}

// Functions of times (section 17.4.5).
fn is_time_call(text: &[u8]) -> bool
    ensures { result ≡ spec.is_time_call text.now }
{
    is_text(text, b"NOW")
        || is_text(text, b"YEAR")
        || is_text(text, b"MONTH")
        || is_text(text, b"DAY")
        || is_text(text, b"HOURS")
        || is_text(text, b"MINUTES")
        || is_text(text, b"SECONDS")
        || is_text(text, b"TIMEZONE")
        || is_text(text, b"TZ")
}

// Hashes (section 17.4.6).
fn is_hash_call(text: &[u8]) -> bool
    ensures { result ≡ spec.is_hash_call text.now }
{
    is_text(text, b"MD5")
        || is_text(text, b"SHA1")
        || is_text(text, b"SHA256")
        || is_text(text, b"SHA384")
        || is_text(text, b"SHA512")
}

// Aggregates (section 11).
fn is_aggregate(text: &[u8]) -> bool
    ensures { result ≡ spec.is_aggregate text.now }
{
    is_text(text, b"COUNT")
        || is_text(text, b"SUM")
        || is_text(text, b"MIN")
        || is_text(text, b"MAX")
        || is_text(text, b"AVG")
        || is_text(text, b"SAMPLE")
        || is_text(text, b"GROUP_CONCAT")
}
