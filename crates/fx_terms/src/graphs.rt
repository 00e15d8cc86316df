//! Graphs.
ghost use Rattle.std.specs.Prelude.{◌≡◌, All, IfOk};
ghost use Rattle.std.specs.List.Sorted.{IsStrictlySortedBy};
ghost use Rattle.fx_terms.specs.Triples.{triple_cmp, IsTriple};
ghost use Rattle.fx_terms.specs.Graphs.{IsGraphOf, graph_of};

use crate::allocation::Memory;
use crate::triples::Triple;
use std::alloc::Global;
use std::marker::Model;

/// A graph: a set of triples (RDF 1.1 Concepts 3). Contracts see the list of its triples in the order of subject,
/// predicate, object, each once.
#[derive(Drop)]
pub struct Graph {
    triples: Vec<Triple>,
}

impl Model for Graph {
    ghost use Rattle.std.specs.Prelude.{List};
    ghost use Rattle.fx_terms.specs.declared.triples.Triple.{Triple as TripleParts};

    ghost Value = { List TripleParts };

    ghost view = { λ g. g.triples.items };

    ghost use Rattle.fx_terms.specs.Graphs.{IsGraph};

    ghost invariant = { λ g. IsGraph g.triples.items };
}

impl Graph {
    /// The graph of some triples: exactly these, in order, each once.
    pub fn of(triples: Vec<Triple>) -> Result<Graph, Memory>
        ensures graph { IfOk result (IsGraphOf triples.items) }
        ensures exact { IfOk result (λ g. g ≡ graph_of triples.items) }
    {
        let mut triples = triples;
        known(triples.as_slice());
        triples.sort()?;
        triples.dedup();
        Ok(Graph { triples })
    }

    /// The triples in the order of subject, predicate, object, each once.
    pub fn triples(&self) -> &[Triple]
        ensures all { result.now ≡ self.now }
        ensures rises { IsStrictlySortedBy triple_cmp self.now }
        ensures terms { All IsTriple self.now }
    {
        self.triples.as_slice()
    }

    /// An equal graph, which shares the texts.
    pub fn copy(&self, alloc: Global) -> Result<Graph, Memory>
        ensures { IfOk result (λ copy. copy ≡ self.now) }
    {
        Ok(Graph {
            triples: copy_triples(alloc, self.triples.as_slice())?,
        })
    }
}

// That the parts of triples are what their readers accept.
fn known(triples: &[Triple])
    ensures { All IsTriple triples.now }
{
    for triple in triples {
        triple.known();
    }
}

fn copy_triples(alloc: Global, triples: &[Triple]) -> Result<Vec<Triple>, Memory>
    ensures { IfOk result (λ copies. copies.items ≡ triples.now) }
{
    let mut copies = Vec::with_capacity(alloc, triples.len())?;
    for triple in triples {
        copies.push(triple.copy()?)?;
    }
    Ok(copies)
}
