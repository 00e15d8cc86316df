//! Tokens, as the grammar sees them.
ghost use Rattle.std.specs.Prelude.{◌≡◌, IfOk};
ghost use Rattle.fx_grammar.specs.Kinds as spec;

use fx_algebra::{Compare, Function};
use fx_terms::{Iri, Memory, Name};
use std::alloc::Global;
use std::marker::Model;
use std::sync::ArcStr;

/// What the grammar makes of a token (SPARQL 1.1 section 19.8). A keyword is named as it is written, without regard to case.
#[derive(Clone, Copy, PartialEq, Eq)]
pub enum Kind {
    /// `{`.
    LeftBrace,
    /// `}`.
    RightBrace,
    /// `(`.
    LeftParen,
    /// `)`.
    RightParen,
    /// `[`.
    LeftBracket,
    /// `.`.
    Dot,
    /// `;`.
    Semicolon,
    /// `,`.
    Comma,
    /// `*`.
    Star,
    /// `/`.
    Slash,
    /// `|`.
    Bar,
    /// `^`.
    Caret,
    /// `+`.
    Plus,
    /// `-`.
    Dash,
    /// `?`.
    Question,
    /// `!`.
    Bang,
    /// `=`, `!=`, `<`, `>`, `<=` or `>=`.
    Comparison,
    /// `&&`.
    AndAnd,
    /// `||`.
    OrOr,
    /// `^^`.
    CaretCaret,
    Prefix,
    Select,
    Ask,
    Distinct,
    Reduced,
    Where,
    Order,
    By,
    Asc,
    Desc,
    Limit,
    Offset,
    Union,
    Optional,
    Minus,
    Service,
    Silent,
    Filter,
    Bind,
    As,
    Values,
    Undef,
    True,
    False,
    Not,
    In,
    /// `a`, in lower case alone.
    A,
    Bound,
    Coalesce,
    If,
    /// A function of one expression, as `STR`.
    One,
    /// A function of two expressions, as `CONTAINS`.
    Two,
    /// A word with which another form of query or an update begins, as `CONSTRUCT` or `INSERT`.
    OtherForm,
    From,
    /// `GROUP` or `HAVING`.
    Grouping,
    Graph,
    /// A function that this profile leaves out, as `REGEX`.
    OtherCall,
    /// An absolute IRI.
    Iri,
    /// An IRI that isn't absolute.
    Relative,
    /// A name with a prefix.
    PrefixName,
    Variable,
    /// The label of a blank node.
    Blank,
    /// A language tag.
    Tag,
    Integer,
    /// A sign and digits.
    Signed,
    Decimal,
    /// A text between quotes.
    Text,
    /// `{` or `(` after which more than 64 of them are open.
    TooDeep,
    /// `SERVICE` between the braces of another SERVICE.
    InnerService,
    /// Any other word or mark.
    Other,
}

/// A text that others share. Contracts see its bytes.
#[derive(Drop)]
pub struct Text {
    inner: ArcStr,
}

impl Model for Text {
    ghost use Rattle.std.specs.Prelude.{List, ℕ};
    ghost use Rattle.std.specs.Arc.{arc_str_bytes};

    ghost Value = { List ℕ };

    ghost view = { λ t. arc_str_bytes t.inner };
}

impl Text {
    pub fn of(alloc: Global, text: &str) -> Result<Text, Memory>
        ensures { IfOk result (λ t. t ≡ text.now) }
    {
        Ok(Text {
            inner: ArcStr::from_str(alloc, text)?,
        })
    }

    pub fn as_str(&self) -> &str
        ensures { result.now ≡ self.now }
    {
        self.inner.as_str()
    }

    /// An equal text, which takes no memory for its bytes.
    pub fn copy(&self) -> Result<Text, Memory>
        ensures { IfOk result (λ t. t ≡ self.now) }
    {
        Ok(Text {
            inner: self.inner.clone()?,
        })
    }
}

/// A token, with as much of its text as the grammar needs.
#[derive(Drop)]
pub enum Token {
    /// A token that says no more than its kind.
    Plain(Kind),
    Comparison(Compare),
    /// The name of a function of one expression.
    One(Function),
    /// The name of a function of two expressions.
    Two(Function),
    Variable(Name),
    Iri(Iri),
    /// What stands before the colon, and what stands behind it without its backslashes.
    PrefixName { prefix: Text, local: Text },
    /// A language tag, without its `@`.
    Tag(Text),
    /// Digits.
    Integer(Text),
    /// A sign and digits.
    Signed(Text),
    /// What stands between the quotes, with each escape as the character that it names.
    Text(Text),
}

impl Token {
    /// What the grammar makes of the token.
    pub fn kind(&self) -> Kind
        ensures { result ≡ spec.kind_of self.now }
    {
        match self {
            Token::Plain(kind) => *kind,
            Token::Comparison(_) => Kind::Comparison,
            Token::One(_) => Kind::One,
            Token::Two(_) => Kind::Two,
            Token::Variable(_) => Kind::Variable,
            Token::Iri(_) => Kind::Iri,
            Token::PrefixName {
                prefix: _,
                local: _,
            } => Kind::PrefixName,
            Token::Tag(_) => Kind::Tag,
            Token::Integer(_) => Kind::Integer,
            Token::Signed(_) => Kind::Signed,
            Token::Text(_) => Kind::Text,
        }
    }
}

/// Whether two kinds are the same.
pub fn is(a: Kind, b: Kind) -> bool
    ensures { result ≡ spec.is a b }
{
    a == b
}
