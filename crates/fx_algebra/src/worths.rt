//! What literals are worth (SPARQL 1.1 section 17), as far as the definitions speak of it.

/// The types of integers: xsd:integer and the twelve that XML Schema derives from it (SPARQL 1.1 section 17.1).
#[derive(Clone, Copy)]
pub enum IntegerType {
    Integer,
    NonPositiveInteger,
    NegativeInteger,
    NonNegativeInteger,
    PositiveInteger,
    Long,
    Int,
    Short,
    Byte,
    UnsignedLong,
    UnsignedInt,
    UnsignedShort,
    UnsignedByte,
}

/// What the datatype of a literal says of it.
#[derive(Clone, Copy)]
pub enum Kind {
    Integer(IntegerType),
    Boolean,
    /// xsd:string.
    Text,
    /// A literal with a language tag.
    Tagged,
    Other,
}

/// What a term is worth.
#[derive(Clone, Copy, PartialEq, Eq)]
pub enum Worth {
    Integer(i64),
    Boolean(bool),
    /// A string, whose value is its form.
    Text,
    /// An IRI, or a literal without a value.
    Opaque,
}
