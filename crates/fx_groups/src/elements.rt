//! Elements of groups that hold expressions.
ghost use Rattle.fx_grammar.specs.Rule as rule;
ghost use Rattle.fx_grammar.specs.Grammar as grammar;
ghost use Rattle.fx_readers.specs.Gives.{Gives};

use fx_algebra::Element;
use fx_grammar::{Kind, Token};
use fx_readers::{Fault, Prefixes};
use fx_terms::{Boxed, Name};
use indexmap::IndexSet;
use std::alloc::Global;

/// Readers of the elements of a group that hold expressions. The readers of groups take them as a type, so that groups stand beside
/// expressions, and not on them.
pub trait ReadsElements {
    /// A FILTER.
    fn filter<'a>(
        alloc: Global,
        tokens: &'a [Token],
        prefixes: &Prefixes,
    ) -> Result<(Boxed<Element>, &'a [Token]), Fault>
        ensures { Gives (λ x. (x.0, x.1.now)) result ((rule.made Element.Filter (rule.after (rule.token Kind.Filter) (grammar.constraint prefixes.now))).read tokens.now) };

    /// A BIND whose name is none of these.
    fn binding<'a>(
        alloc: Global,
        tokens: &'a [Token],
        prefixes: &Prefixes,
        names: &IndexSet<Name>,
    ) -> Result<(Boxed<Element>, &'a [Token]), Fault>
        ensures { Gives (λ x. (x.0, x.1.now)) result ((grammar.binding prefixes.now names.now.keys).read tokens.now) };
}
