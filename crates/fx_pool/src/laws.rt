//! A law of replies, the contract of a function that does nothing.
ghost use Rattle.fx_pool.specs.Laws.{HonestResults};

/// The results of an honest reply to the text of a query without SERVICE are the query's answer over the graph, up to the order of columns
/// and rows.
pub fn honest_results()
    ensures { HonestResults }
{}
