//! The datatypes that have a meaning of their own, by their IRIs (`specs/Datatypes.antt`).

/// The namespace of the types of XML Schema, as bytes.
pub const XSD: &[u8] = b"http://www.w3.org/2001/XMLSchema#";

/// The datatype of a literal that is written with neither a datatype nor a tag.
pub const XSD_STRING: &str = "http://www.w3.org/2001/XMLSchema#string";

/// The datatype of the integers that expressions make.
pub const XSD_INTEGER: &str = "http://www.w3.org/2001/XMLSchema#integer";

/// The datatype of truth values.
pub const XSD_BOOLEAN: &str = "http://www.w3.org/2001/XMLSchema#boolean";

/// The datatype of a literal with a language tag.
pub const LANG_STRING: &str = "http://www.w3.org/1999/02/22-rdf-syntax-ns#langString";
