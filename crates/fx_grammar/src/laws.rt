//! Laws of the definitions, each the contract of a function that does nothing.
ghost use Rattle.fx_terms.specs.Utf8.{StopOnce};
ghost use Rattle.fx_grammar.specs.Accepted.{OneQuery};
ghost use Rattle.fx_grammar.specs.Grammar as grammar;
ghost use Rattle.fx_grammar.specs.Refused.{NeverBoth, OneRefusal};
ghost use Rattle.fx_grammar.specs.Rule.{EndsAsSpelled, ReadAsSpelled, RefusedAsStopped, RefusedFitly, RefusedForGood, RefusedTheSame, SpelledOrStopped};

/// Bytes that aren't UTF-8 stop being it at one place.
pub fn utf8_stops_once()
    ensures { StopOnce }
{}

/// A text is accepted as one query at most.
pub fn one_query()
    ensures { OneQuery }
{}

/// A text is refused for one reason at one place at most.
pub fn one_refusal()
    ensures { OneRefusal }
{}

/// A text that is accepted isn't refused.
pub fn never_both()
    ensures { NeverBoth }
{}

/// Tokens spell one query, or they stop the grammar at one place for one reason, and never both.
pub fn tokens_spell_or_stop()
    ensures { SpelledOrStopped grammar.query }
{}

/// What is spelled before a token that doesn't go on with it is a query, and no query begins with its tokens and that one.
pub fn what_ends_is_spelled()
    ensures { EndsAsSpelled grammar.query }
{}

/// The grammar is read from left to right, a token at a time, exactly as it is spelled.
pub fn grammar_is_read_as_spelled()
    ensures { ReadAsSpelled grammar.query }
{}

/// Read so, tokens are refused exactly where they stop the grammar, for that reason.
pub fn grammar_is_refused_as_stopped()
    ensures { RefusedAsStopped grammar.query }
{}

/// Where a token stops the grammar, no query begins with the tokens up to and with it.
pub fn grammar_refuses_for_good()
    ensures { RefusedForGood grammar.query }
{}

/// A token that stops the grammar does so for the same reason, whatever stands behind it.
pub fn grammar_refuses_the_same()
    ensures { RefusedTheSame grammar.query }
{}

/// Where tokens stop the grammar, the reason fits the place: at the end of all tokens it is that something else was expected, and
/// a token that is refused wherever reading comes to it has its own.
pub fn grammar_refuses_fitly()
    ensures { RefusedFitly grammar.query }
{}
