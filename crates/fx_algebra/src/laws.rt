//! Laws of the definitions, each the contract of a function that does nothing.
ghost use Rattle.fx_algebra.specs.BasicGraphPatterns.{BgpLaw};
ghost use Rattle.fx_algebra.specs.Cuts.{CutHasTheNames, MeaningHasTheTree, SeedsForEachStation, StationsAreFixed};
ghost use Rattle.fx_algebra.specs.Orders.{JoinsInAnyOrder, RunsInAnyOrder};
ghost use Rattle.fx_algebra.specs.Sequences.{OneSequence};
ghost use Rattle.fx_algebra.specs.Units.{AllKeptAreAll, KeptHaveTheirGraphs, KeptHaveTheirNumbers, SourcesAreKept, UnionIsOfTheKept};

/// The solutions of a basic graph pattern (SPARQL 1.1 section 18.3.1). Over a graph whose triples rise, each stands once, and
/// they are exactly those that bind the variables of the patterns, and no others, and turn each pattern into a triple of the
/// graph.
pub fn bgp_law()
    ensures { BgpLaw }
{}

/// The sequence of an answer without order keys (SPARQL 1.1 section 18.2.5, in this project's profile). The same solutions,
/// however they arrived, give one list of rows, with or without DISTINCT, OFFSET and LIMIT.
pub fn one_sequence()
    ensures { OneSequence }
{}

/// The pass over a group that gives its rows also gives its stations, the places that requests are sent for, with the rows that enter
/// each of them. The stations are the same over all graphs and whichever occurrences of SERVICE are down, each has its rows, and the
/// pass keeps the group and the names in its scope.
pub fn one_cut()
    ensures fixed { StationsAreFixed }
    ensures seeds { SeedsForEachStation }
    ensures tree { MeaningHasTheTree }
    ensures names { CutHasTheNames }
{}

/// A run of triple patterns, from any rows (SPARQL 1.1 section 18.3). Over a graph whose triples rise, the same patterns give the same
/// rows, in whichever order they are taken.
pub fn one_run()
    ensures { RunsInAnyOrder }
{}

/// Joins (SPARQL 1.1 section 18.5). Rows that are joined with one list and then with another are the same as those joined with the second
/// first.
pub fn one_join()
    ensures { JoinsInAnyOrder }
{}

/// Graphs with an empty one in the place of each member that isn't kept. Each member keeps its number; the sources of a pattern are those
/// of its sources that are kept; and the union is that of the kept members' graphs alone. Where all are kept, nothing changes.
pub fn kept_graphs()
    ensures numbers { KeptHaveTheirNumbers }
    ensures graphs { KeptHaveTheirGraphs }
    ensures sources { SourcesAreKept }
    ensures union { UnionIsOfTheKept }
    ensures all { AllKeptAreAll }
{}
