//! Laws of the definitions, each the contract of a function that does nothing.
ghost use Rattle.fx_spelling.specs.Printable.{AcceptedIsPrintable, PatternQueryIsAccepted, PrintedIsAccepted, PrintedTextIsAccepted, SpellableIsAccepted};
ghost use Rattle.fx_spelling.specs.Runs.{RunsAreOfTheGrammar};
ghost use Rattle.fx_spelling.specs.Units.{FitUnitsHaveVerbs};

/// The printed query of a triple pattern, whose names, IRIs and literals are those of their types, is accepted as that query.
pub fn pattern_query_is_accepted()
    ensures { PatternQueryIsAccepted }
{}

/// The printed text of a query that the grammar has, in which at most 64 brackets are open at once, is accepted as that query.
pub fn printed_is_accepted()
    ensures { PrintedIsAccepted }
{}

/// What is accepted as a query is one that the grammar has: its names, terms and numbers are those of their types, and its parts
/// are as the grammar makes them.
pub fn accepted_is_printable()
    ensures { AcceptedIsPrintable }
{}

/// Where some text is accepted as a query, its printed text is too, if at most 64 brackets are open at once in it.
pub fn spellable_is_accepted()
    ensures { SpellableIsAccepted }
{}

/// The same by the brackets of the printed words: at most 64 of `{` and `(` are open at once.
pub fn printed_text_is_accepted()
    ensures { PrintedTextIsAccepted }
{}

/// Where some text is accepted as a query, each run of triple patterns outside SERVICE is one of the grammar: it has a pattern, its
/// patterns are triples, and the filters of its group are expressions, whose names and terms are those of their types.
pub fn runs_are_of_the_grammar()
    ensures { RunsAreOfTheGrammar }
{}

/// No predicate of a unit that can be asked for is a literal.
pub fn fit_units_have_verbs()
    ensures { FitUnitsHaveVerbs }
{}
