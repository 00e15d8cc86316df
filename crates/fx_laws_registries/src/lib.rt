//! Laws of registries: what a line says, which lines are a registry, and which line refuses one.
//!
//! Nothing here is called: each function is a law of the definitions in `fx_sources`, which is its contract.
#![tactic(auto)]

ghost use Rattle.fx_laws_registries.specs.Lines.{LinesAreReadByTheirWords, WordsStandBetweenBlanks};
ghost use Rattle.fx_laws_registries.specs.Registries.{RegistriesAreReadByTheirLines};

/// The words of a line are what stands between its blanks.
pub fn words_stand_between_blanks()
    ensures { WordsStandBetweenBlanks }
{}

/// A line is an entry exactly where its words are a name, the address of an endpoint that a request can be written for, and flags, `optional` and
/// `values`, each once at most and in any order; the endpoint has these, this name and address, and the host, port and target that the address reads. A line is passed over exactly
/// where it has no word, or its first word begins with `#`. Any other line is malformed.
pub fn lines_are_read_by_their_words()
    ensures { LinesAreReadByTheirWords }
{}

/// A text is a registry exactly where no line is malformed and its entries, in their order, are at most 64, with distinct names and with
/// addresses that read to distinct texts. It is refused at a line exactly where the lines in front are a registry, and the line is malformed, or
/// the 65th entry, or has the name of an entry in front, or else an address that reads to the same text as one of them.
pub fn registries_are_read_by_their_lines()
    ensures { RegistriesAreReadByTheirLines }
{}
