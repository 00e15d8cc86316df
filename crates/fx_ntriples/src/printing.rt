//! Graphs are written.
ghost use Rattle.std.specs.Prelude.{◌≡◌, IfOk, Ok};
ghost use Rattle.std.specs.String.{string_bytes};
ghost use Rattle.fx_ntriples.specs.Printing as spec;
ghost use Rattle.fx_ntriples.specs.Reading.{read_document};
ghost use Rattle.fx_terms.specs.Answers.{Grows};

use fx_terms::{Graph, Memory, Triple, write_iri, write_term};
use std::alloc::Global;

/// The N-Triples document of a graph: a line for each triple in the graph's order, its parts with one space between and
/// before the dot. In strings `"`, backslash, LF and CR are written `\"`, `\\`, `\n` and `\r`, and every other character as
/// itself. The datatype xsd:string is not written.
pub fn print_graph(alloc: Global, graph: &Graph) -> Result<String, Memory>
    ensures text { IfOk result (λ text. string_bytes text ≡ spec.printed_graph graph.now) }

    // Reading gives the graph back.
    ensures back { IfOk result (λ text. read_document (string_bytes text) ≡ Ok graph.now) }
{
    print(alloc, graph.triples())
}

#[tactic(auto, unfolding(crate::specs::Printing::printed_graph))]
fn print(alloc: Global, triples: &[Triple]) -> Result<String, Memory>
    ensures { IfOk result (λ text. string_bytes text ≡ spec.printed_graph triples.now) }
{
    let mut out = String::new(alloc);
    for triple in triples {
        write_line(&mut out, triple)?;
    }
    Ok(out)
}

fn write_line(out: &mut String, triple: &Triple) -> Result<(), Memory>
    ensures { Grows result (string_bytes out.old) (string_bytes out.new) (spec.printed_line triple.now) }
{
    write_iri(out, &triple.subject)?;
    out.push(' ')?;
    write_iri(out, &triple.predicate)?;
    out.push(' ')?;
    write_term(out, &triple.object)?;
    out.push_str(" .\n")?;
    Ok(())
}
