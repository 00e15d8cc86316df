//! The graph that the text of a file is, by the file's name.
ghost use Rattle.std.specs.Prelude.{◌≡◌, false, true};
ghost use Rattle.fx_local.specs.GraphTexts as spec;
ghost use Rattle.fx_local.specs.GraphTexts.{GivesGraphIn, GivesGraphText};

use crate::refusals::{GraphFault, GraphRefusal};
use fx_ntriples::read_graph;
use fx_terms::Graph;
use fx_turtle::{TurtleError, read_turtle};
use std::alloc::Global;

/// The graph of the text of a file with this name: of Turtle where the name ends with `.ttl`, and else of N-Triples.
///
/// `Refused` comes where the text is no document of its language, and `Memory` where memory runs out.
pub(crate) fn graph_of(alloc: Global, name: &str, text: &[u8]) -> Result<Graph, GraphRefusal>
    ensures { GivesGraphText name.now text.now result }
{
    if is_turtle(name) {
        turtle_graph(alloc, text)
    } else {
        triples_graph(alloc, text)
    }
}

// Whether a file with this name holds Turtle.
fn is_turtle(name: &str) -> bool
    ensures { result ≡ spec.is_turtle name.now }
{
    name.ends_with(".ttl")
}

fn turtle_graph(alloc: Global, text: &[u8]) -> Result<Graph, GraphRefusal>
    ensures { GivesGraphIn true text.now result }
{
    match read_turtle(alloc, text) {
        Ok(graph) => Ok(graph),
        Err(TurtleError::Refused { kind, place }) => {
            Err(GraphRefusal::Refused(GraphFault::Turtle { kind, place }))
        }
        Err(TurtleError::Memory) => Err(GraphRefusal::Memory),
    }
}

fn triples_graph(alloc: Global, text: &[u8]) -> Result<Graph, GraphRefusal>
    ensures { GivesGraphIn false text.now result }
{
    match read_graph(alloc, text) {
        Ok(graph) => Ok(graph),
        Err(error) => Err(GraphRefusal::Refused(GraphFault::Triples(error))),
    }
}
