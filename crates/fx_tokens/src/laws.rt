//! Laws of the definitions, each the contract of a function that does nothing.
ghost use Rattle.fx_tokens.specs.Kinds.{OneKind};

/// No text is a token of two kinds, so that the longest token at the front of a text has one kind.
pub fn one_kind()
    ensures { OneKind }
{}
