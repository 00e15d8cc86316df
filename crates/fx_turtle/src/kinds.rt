//! Kinds of symbols, as the grammar sees them.

/// What the grammar of Turtle makes of a token.
#[derive(Clone, Copy, PartialEq, Eq)]
pub enum Kind {
    /// An absolute IRI.
    Iri,
    /// An IRI that isn't absolute.
    Relative,
    /// A name with a prefix.
    PrefixName,
    /// A text between quotes.
    Text,
    /// A language tag, but for the next two.
    Tag,
    /// `@prefix`, which is a language tag behind a text.
    AtPrefix,
    /// `@base`, which is a language tag behind a text.
    AtBase,
    /// `PREFIX`, without regard to case.
    Prefix,
    /// `BASE`, without regard to case.
    Base,
    /// `a`.
    A,
    /// A number.
    Number,
    /// `true` or `false`.
    Truth,
    /// The label of a blank node.
    Blank,
    /// `[`.
    LeftBracket,
    /// `(`.
    LeftParen,
    /// `.`.
    Dot,
    /// `;`.
    Semicolon,
    /// `,`.
    Comma,
    /// `^^`.
    CaretCaret,
    /// Any other token.
    Other,
}
