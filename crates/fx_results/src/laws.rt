//! Laws of the definitions, each the contract of a function that does nothing.
ghost use Rattle.fx_results.specs.Meanings.{ReadsBack, DenotesItself};

/// The document of an answer reads as the answer: where its columns are distinct names of variables, and each row binds
/// columns alone, by rising name, to IRIs that are accepted and to literals that can be made. The document is UTF-8, as `write`
/// ensures of what it writes.
pub fn reads_back()
    ensures { ReadsBack }
{}

/// Such a document means its answer.
pub fn denotes_itself()
    ensures { DenotesItself }
{}
