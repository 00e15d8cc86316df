//! Laws of the definitions, each the contract of a function that does nothing.
ghost use Rattle.fx_sources.specs.Sources.{AllChosenAreKept, AllProbesAreKept, AskTellsFits, ChoosesKeptSources, ChoosesSources, KeyFitsAlike};

/// The answer of the query that asks for a pattern is whether the pattern has a solution over the graph (SPARQL 1.1 section
/// 16.3).
pub fn ask_tells_fits()
    ensures { AskTellsFits }
{}

/// A pattern has a solution over a graph exactly where its key has one.
pub fn key_fits_alike()
    ensures { KeyFitsAlike }
{}

/// Where each entry of a cache tells whether its key has a solution over the graph of its member, and each answer to the
/// missing probes too, the members that are chosen for each pattern are exactly those over whose graph it has a solution.
pub fn chooses_sources()
    ensures { ChoosesSources }
{}

/// Where each entry of a cache tells whether its key has a solution over the graph of its member, and each answer to the
/// missing probes of kept members too, the kept members that are chosen for each pattern are exactly those over whose graph it
/// has a solution.
pub fn chooses_kept_sources()
    ensures { ChoosesKeptSources }
{}

/// Where each member is kept, each missing probe is, and each member that is chosen.
pub fn all_are_kept()
    ensures probes { AllProbesAreKept }
    ensures members { AllChosenAreKept }
{}
