//! Why a text is refused.
ghost use Rattle.std.specs.Prelude.{◌≡◌};
ghost use Rattle.fx_turtle.specs.Documents as spec;

/// Why a text is no document of Turtle.
#[derive(Clone, Copy, Debug, PartialEq, Eq)]
pub enum TurtleKind {
    /// The bytes aren't UTF-8: at the first byte such that no valid UTF-8 begins with the bytes up to it and with it, or at the
    /// end where the bytes end inside a character.
    BadUtf8,
    /// No token stands where one would begin: at the token's fault.
    BadToken,
    /// At the label of a blank node, or a `[`, where a subject or an object may begin.
    Blank,
    /// At a `(` there, and at `@base` or `BASE` where a statement may begin.
    Unsupported,
    /// At a name with a prefix in the place of an IRI, whose prefix isn't declared before it.
    UnknownPrefix,
    /// At an IRI that isn't absolute.
    Relative,
    /// At a datatype that is rdf:langString.
    BadLiteral,
    /// At any other token that may not stand where it stands, or at the end of a text that ends too early.
    Unexpected,
}

/// Why no graph is read.
#[derive(Clone, Copy, Debug, PartialEq, Eq)]
pub enum TurtleError {
    /// The text is no document, for this reason at this byte place.
    Refused { kind: TurtleKind, place: u64 },
    /// Memory ran out.
    Memory,
}

impl TurtleKind {
    /// The kind's name, as `Unexpected`.
    pub fn name(&self) -> &'static str
        ensures { result.now ≡ spec.kind_name self.now }
    {
        match self {
            TurtleKind::BadUtf8 => "BadUtf8",
            TurtleKind::BadToken => "BadToken",
            TurtleKind::Blank => "Blank",
            TurtleKind::Unsupported => "Unsupported",
            TurtleKind::UnknownPrefix => "UnknownPrefix",
            TurtleKind::Relative => "Relative",
            TurtleKind::BadLiteral => "BadLiteral",
            TurtleKind::Unexpected => "Unexpected",
        }
    }
}
