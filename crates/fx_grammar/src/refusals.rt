//! Why a text is refused.
ghost use Rattle.std.specs.Prelude.{◌≡◌};
ghost use Rattle.fx_grammar.specs.Refused as spec;

use fx_terms::Memory;

/// Why a text is no query.
#[derive(Clone, Copy, Debug, PartialEq, Eq)]
pub enum SyntaxKind {
    /// The bytes aren't UTF-8: at the first byte such that no valid UTF-8 begins with the bytes up to it and with it, or at the
    /// end where the bytes end inside a character.
    BadUtf8,
    /// No token stands where one would begin: at the token's fault.
    BadToken,
    /// At a `{` or `(` after which more than 64 of them are open.
    TooDeep,
    /// At a name with a prefix in the place of an IRI, whose prefix isn't declared.
    UnknownPrefix,
    /// At an IRI that isn't absolute.
    RelativeIri,
    /// At the label of a blank node, or a `[`, where a term may begin.
    BlankNode,
    /// At a decimal or double where a literal may stand.
    Decimal,
    /// At a datatype that is rdf:langString.
    BadLiteral,
    /// At a variable of BIND that is in scope of what stands before it in its group.
    BindInScope,
    /// At the `)` of a row of VALUES that isn't as wide as the columns.
    ValuesWidth,
    /// At the second place of a column of one VALUES block.
    RepeatedName,
    /// At the number of LIMIT or OFFSET that is above 18,446,744,073,709,551,615.
    NumberTooWide,
    /// At a token of SPARQL 1.1 that this profile leaves out.
    Unsupported,
    /// At any other token that may not stand where it stands, or at the end of a text that ends too early.
    Unexpected,
}

impl SyntaxKind {
    /// The kind's name, as `Unexpected`.
    pub fn name(&self) -> &'static str
        ensures { result.now ≡ spec.kind_name self.now }
    {
        match self {
            SyntaxKind::BadUtf8 => "BadUtf8",
            SyntaxKind::BadToken => "BadToken",
            SyntaxKind::TooDeep => "TooDeep",
            SyntaxKind::UnknownPrefix => "UnknownPrefix",
            SyntaxKind::RelativeIri => "RelativeIri",
            SyntaxKind::BlankNode => "BlankNode",
            SyntaxKind::Decimal => "Decimal",
            SyntaxKind::BadLiteral => "BadLiteral",
            SyntaxKind::BindInScope => "BindInScope",
            SyntaxKind::ValuesWidth => "ValuesWidth",
            SyntaxKind::RepeatedName => "RepeatedName",
            SyntaxKind::NumberTooWide => "NumberTooWide",
            SyntaxKind::Unsupported => "Unsupported",
            SyntaxKind::Unexpected => "Unexpected",
        }
    }
}

/// Why a text is refused.
#[derive(Clone, Copy, Debug, PartialEq, Eq)]
pub enum SyntaxError {
    /// For this reason, at this byte place.
    Refused { kind: SyntaxKind, place: u64 },
    /// Memory ran out.
    Memory,
}

impl From<Memory> for SyntaxError {
    ghost use Rattle.std.specs.Prelude.{◌≡◌};
    ghost use Rattle.fx_grammar.specs.declared.refusals.SyntaxError.TheVariants.{Memory as NoMemory};

    ghost from_gives = { λ _ e. e ≡ NoMemory };

    fn from(_error: Memory) -> SyntaxError {
        SyntaxError::Memory
    }
}
