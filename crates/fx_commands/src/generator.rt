//! The members that `generate` makes, by a rule.
ghost use Rattle.std.specs.Prelude.{◌≡◌, ◌≤◌, ◌<◌, ◌++◌, ◌∷◌, [], IfOk, Ok, OnOk, string_bytes};
ghost use Rattle.std.specs.Fmt.{decimal};
ghost use Rattle.std.specs.List.{flat_map, range_with_len};
ghost use Rattle.fx_terms.specs.Iris.{read_iri};
ghost use Rattle.fx_commands.specs.Generator as spec;
ghost use Rattle.fx_commands.specs.GeneratorSteps.{at_addresses};

use fx_terms::datatypes::XSD_INTEGER;
use fx_terms::{Graph, Iri, Literal, LiteralError, Memory, Term, Triple};
use itoa::Buffer;
use std::alloc::Global;

/// The three members that are made of so many persons: the address of each, and its graph. It takes time by the number of persons and its logarithm, for sorting.
pub fn members(alloc: Global, size: u32) -> Result<Vec<(Iri, Graph)>, Memory>
    requires { (1 ≤ size) × (size ≤ 10000) }
    ensures { IfOk result (λ members. members.items ≡ at_addresses (spec.member_graph size 0) (spec.member_graph size 1) (spec.member_graph size 2)) }
{
    let mut members = Vec::new(alloc);
    push_member(alloc, &mut members, "http://127.0.0.1:9000/sparql", size, 0)?;
    push_member(alloc, &mut members, "http://127.0.0.1:9001/sparql", size, 1)?;
    push_member(alloc, &mut members, "http://127.0.0.1:9002/sparql", size, 2)?;
    Ok(members)
}

fn push_member(
    alloc: Global,
    members: &mut Vec<(Iri, Graph)>,
    address: &str,
    size: u32,
    member: u32,
) -> Result<(), Memory>
    requires size { (1 ≤ size) × (size ≤ 10000) }
    requires address { read_iri address.now ≡ Ok address.now }
    ensures { OnOk result (members.new.items ≡ members.old.items ++ (address.now, spec.member_graph size member) ∷ []) }
{
    let address = Iri::known(alloc, address)?;
    let graph = Graph::of(held(alloc, size, member)?)?;
    members.push((address, graph))?;
    Ok(())
}

// What a member holds, person by person.
fn held(alloc: Global, size: u32, member: u32) -> Result<Vec<Triple>, Memory>
    requires { (1 ≤ size) × (size ≤ 10000) }
    ensures { IfOk result (λ held. held.items ≡ flat_map (spec.held_of size member) (range_with_len 0 size)) }
{
    let mut held = Vec::new(alloc);
    for number in 0..size {
        push_held(alloc, &mut held, size, member, number)?;
    }
    Ok(held)
}

fn push_held(
    alloc: Global,
    held: &mut Vec<Triple>,
    size: u32,
    member: u32,
    number: u32,
) -> Result<(), Memory>
    requires { (number < size) × (size ≤ 10000) }
    ensures { OnOk result (held.new.items ≡ held.old.items ++ spec.held_of size member number) }
{
    push_link(alloc, held, size, member, number)?;
    push_age(alloc, held, member, number)
}

// Adds the link of a person, if the member holds it.
fn push_link(
    alloc: Global,
    held: &mut Vec<Triple>,
    size: u32,
    member: u32,
    number: u32,
) -> Result<(), Memory>
    requires { (number < size) × (size ≤ 10000) }
    ensures { OnOk result (held.new.items ≡ held.old.items ++ spec.links size member number) }
{
    if !holds_link(member, number) {
        return Ok(());
    }
    held.push(link(alloc, size, number)?)?;
    Ok(())
}

// Adds the age of a person, if the member holds it.
fn push_age(alloc: Global, held: &mut Vec<Triple>, member: u32, number: u32) -> Result<(), Memory>
    ensures { OnOk result (held.new.items ≡ held.old.items ++ spec.ages member number) }
{
    if member != 2 {
        return Ok(());
    }
    held.push(aged(alloc, number)?)?;
    Ok(())
}

fn holds_link(member: u32, number: u32) -> bool
    requires { number < 10000 }
    ensures { result ≡ spec.holds_link member number }
{
    member == number % 3 || (number % 5 == 0 && member == (number + 1) % 3)
}

fn link(alloc: Global, size: u32, number: u32) -> Result<Triple, Memory>
    requires { (number < size) × (size ≤ 10000) }
    ensures { IfOk result (λ triple. triple ≡ spec.link size number) }
{
    let subject = person(alloc, number)?;
    let predicate = Iri::known(alloc, "http://g/knows")?;
    let object = Term::Iri(person(alloc, (number + 1) % size)?);
    Ok(Triple {
        subject,
        predicate,
        object,
    })
}

fn aged(alloc: Global, number: u32) -> Result<Triple, Memory>
    ensures { IfOk result (λ triple. triple ≡ spec.aged number) }
{
    let subject = person(alloc, number)?;
    let predicate = Iri::known(alloc, "http://g/age")?;
    let object = Term::Literal(integer(alloc, number % 90)?);
    Ok(Triple {
        subject,
        predicate,
        object,
    })
}

fn person(alloc: Global, number: u32) -> Result<Iri, Memory>
    ensures { IfOk result (λ iri. iri ≡ spec.person number) }
{
    let mut text = String::new(alloc);
    text.push_str("http://g/p")?;
    push_number(&mut text, number as u64)?;
    Iri::known(alloc, text.as_str())
}

fn integer(alloc: Global, number: u32) -> Result<Literal, Memory>
    ensures { IfOk result (λ literal. literal ≡ spec.whole number) }
{
    let mut form = String::new(alloc);
    push_number(&mut form, number as u64)?;
    let datatype = Iri::known(alloc, XSD_INTEGER)?;
    match Literal::typed(alloc, form.as_str(), &datatype) {
        Ok(literal) => Ok(literal),
        Err(LiteralError::Memory) => Err(Memory),
        Err(LiteralError::NeedsTag) => unreachable!(),
        Err(LiteralError::BadTag) => unreachable!(),
    }
}

/// Adds a number in decimal digits.
pub fn push_number(text: &mut String, number: u64) -> Result<(), Memory>
    ensures { OnOk result (string_bytes text.new ≡ string_bytes text.old ++ decimal number) }
{
    let mut buffer = Buffer::new();
    text.push_str(buffer.format(number))?;
    Ok(())
}
