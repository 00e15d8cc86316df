//! Laws of the definitions, each the contract of a function that does nothing.
ghost use Rattle.fx_rules.specs.Rule.{EndsAsSpelled};
ghost use Rattle.fx_turtle.specs.Documents.{EachIsDecided, NeverBoth, OneDocument, OneRefusal};
ghost use Rattle.fx_turtle.specs.Examples.{DocumentsAreRead, RefusalsStand};
ghost use Rattle.fx_turtle.specs.Grammar as grammar;
ghost use Rattle.fx_turtle.specs.Printed.{PrintedIsRead};
ghost use Rattle.fx_turtle.specs.Rule.{ReadAsSpelled, RefusedAsStopped, RefusedFitly, RefusedForGood, RefusedTheSame, SpelledOrStopped};

/// A text is one document at most.
pub fn one_document()
    ensures { OneDocument }
{}

/// A text is refused for one reason at one place at most.
pub fn one_refusal()
    ensures { OneRefusal }
{}

/// A text that is a document isn't refused.
pub fn never_both()
    ensures { NeverBoth }
{}

/// Each text is a document, or it is refused.
pub fn each_is_decided()
    ensures { EachIsDecided }
{}

/// Symbols spell the triples of one document, or they stop the grammar at one place for one reason, and never both.
pub fn symbols_spell_or_stop()
    ensures { SpelledOrStopped grammar.document }
{}

/// What is spelled before a symbol that doesn't go on with it is a document, and no document begins with its symbols and that one.
pub fn what_ends_is_spelled()
    ensures { EndsAsSpelled grammar.document }
{}

/// The grammar is read from left to right, a symbol at a time, exactly as it is spelled.
pub fn grammar_is_read_as_spelled()
    ensures { ReadAsSpelled grammar.document }
{}

/// Read so, symbols are refused exactly where they stop the grammar, for that reason.
pub fn grammar_is_refused_as_stopped()
    ensures { RefusedAsStopped grammar.document }
{}

/// Where a symbol stops the grammar, no document begins with the symbols up to and with it.
pub fn grammar_refuses_for_good()
    ensures { RefusedForGood grammar.document }
{}

/// A symbol that stops the grammar does so for the same reason, whatever stands behind it.
pub fn grammar_refuses_the_same()
    ensures { RefusedTheSame grammar.document }
{}

/// Where symbols stop the grammar, the reason fits the place: at the end of all symbols it is that something else was expected, and
/// an IRI that isn't absolute has its own wherever reading comes to it.
pub fn grammar_refuses_fitly()
    ensures { RefusedFitly grammar.document }
{}

/// A document may be read in windows of whole statements, each by the prefixes that were declared before it.
pub fn windows_are_the_whole()
    ensures { grammar.WindowsAreTheWhole }
{}

/// Worked examples of documents, with their triples.
pub fn documents_are_read()
    ensures { DocumentsAreRead }
{}

/// Worked examples of refusals, with their places.
pub fn refusals_stand()
    ensures { RefusalsStand }
{}

/// What N-Triples prints of a graph is a document of Turtle, of that graph: so `read_turtle` gives the graph again.
pub fn printed_is_read()
    ensures { PrintedIsRead }
{}
