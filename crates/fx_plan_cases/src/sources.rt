//! The calls of `fx_sources` that ask members which patterns they have anything for, and choose them by their answers.

use crate::registries;
use fx_algebra::Query;
use fx_notation::{fields, notation};
use fx_sources::{AskCache, AskKey, Probe, Registry, Sources, ask_text, choose, missing};
use fx_terms::{Boxed, Items};
use std::alloc::Global;
use std::fmt::Write;

/// What a call gives.
pub fn answer(alloc: Global, call: &str, inputs: &[&str]) -> Option<String> {
    match (call, inputs) {
        ("ask_text", [pattern]) => asked_text(alloc, pattern),
        ("choose", [members, queries @ ..]) => choose_of_few(alloc, members, queries),
        ("choose behind 4096", [members, queries @ ..]) => choose_of_many(alloc, members, queries),
        _ => None,
    }
}

// The text that asks for a pattern, by its key.
fn asked_text(alloc: Global, text: &str) -> Option<String> {
    let pattern = notation::pattern(alloc, text)?;
    let key = AskKey::of(alloc, pattern.get()).ok()?;
    ask_text(alloc, &key).ok()
}

fn choose_of_few(alloc: Global, members: &str, queries: &[&str]) -> Option<String> {
    let mut cache = AskCache::new(alloc).ok()?;
    choose_in_turn(alloc, &mut cache, members, queries)
}

// The same behind 64 patterns, of which 64 members were asked.
fn choose_of_many(alloc: Global, members: &str, queries: &[&str]) -> Option<String> {
    let mut cache = AskCache::new(alloc).ok()?;
    learn_many(alloc, &mut cache)?;
    choose_in_turn(alloc, &mut cache, members, queries)
}

fn learn_many(alloc: Global, cache: &mut AskCache) -> Option<()> {
    let registry = registries::numbered(alloc, 64)?;
    let query = many_patterns(alloc)?;
    chosen(alloc, &registry, cache, query.get(), "")?;
    Some(())
}

// The query of 64 patterns, `?x <p:0> ?y` and so on.
fn many_patterns(alloc: Global) -> Option<Boxed<Query>> {
    let mut text = String::from_str(alloc, "ASK {").ok()?;
    for number in 0..64u8 {
        write!(text, " ?x <p:{number}> ?y .").ok()?;
    }
    text.push_str(" }").ok()?;
    notation::query(alloc, text.as_str())
}

// Queries that are asked one after the other, each with the lines that are answered by yes behind it.
fn choose_in_turn(
    alloc: Global,
    cache: &mut AskCache,
    members: &str,
    queries: &[&str],
) -> Option<String> {
    let registry = registries::numbered(alloc, members.parse::<u8>().ok()?)?;
    let mut text = String::new(alloc);
    for asked in queries.chunks(2) {
        let [query, yes] = asked else {
            return None;
        };
        let told = told(alloc, &registry, cache, query, yes)?;
        fields::add_behind(&mut text, " | ", told.as_str())?;
    }
    push_count(&mut text, cache)?;
    Some(text)
}

// How many answers the cache holds.
fn push_count(text: &mut String, cache: &AskCache) -> Option<()> {
    let count = cache.len();
    if !text.is_empty() {
        text.push_str(" | ").ok()?;
    }
    if cache.is_empty() {
        text.push_str("holds nothing").ok()?;
    } else {
        write!(text, "holds {count}").ok()?;
    }
    Some(())
}

fn told(
    alloc: Global,
    registry: &Registry,
    cache: &mut AskCache,
    text: &str,
    yes: &str,
) -> Option<String> {
    let query = notation::query(alloc, text)?;
    chosen(alloc, registry, cache, query.get(), yes)
}

// What is asked, and the members that each pattern has. The cache learns the answers.
fn chosen(
    alloc: Global,
    registry: &Registry,
    cache: &mut AskCache,
    query: &Query,
    yes: &str,
) -> Option<String> {
    let mut text = String::new(alloc);
    let probes = missing(alloc, query, registry, cache).ok()?;
    let truths = truths(alloc, &mut text, probes.as_slice(), yes)?;
    if probes.len() != truths.len() {
        return None;
    }
    let asked = probes.as_slice();
    let answers = truths.as_slice();
    let sources = choose(alloc, query, registry, cache, asked, answers).ok()?;
    push_sources(&mut text, &sources)?;
    cache.learn(probes, answers).ok()?;
    Some(text)
}

// The truth of each probe, whose lines are added to a text.
fn truths(alloc: Global, text: &mut String, probes: &[Probe], yes: &str) -> Option<Vec<bool>> {
    let mut truths = Vec::new(alloc);
    for probe in probes {
        let line = line(alloc, probe)?;
        fields::add_behind(text, " ; ", line.as_str())?;
        truths.push(is_yes(line.as_str(), yes)).ok()?;
    }
    if probes.is_empty() {
        text.push_str("nothing").ok()?;
    }
    Some(truths)
}

// A probe as its member and the text that it is asked.
fn line(alloc: Global, probe: &Probe) -> Option<String> {
    let at = probe.at;
    let text = ask_text(alloc, &probe.key).ok()?;
    format!(in alloc; "{at} {text}").ok()
}

fn is_yes(line: &str, yes: &str) -> bool {
    yes == "all" || yes.split(" ; ").any(|one| one == line)
}

fn push_sources(text: &mut String, sources: &Sources) -> Option<()> {
    text.push_str(" =>").ok()?;
    for (number, members) in sources.members.as_slice().iter().enumerate() {
        if number > 0 {
            text.push_str(" ,").ok()?;
        }
        push_members(text, members)?;
    }
    if sources.members.is_empty() {
        text.push_str(" no pattern").ok()?;
    }
    Some(())
}

fn push_members(text: &mut String, members: &Items<u32>) -> Option<()> {
    for at in members.as_slice() {
        write!(text, " {at}").ok()?;
    }
    if members.is_empty() {
        text.push_str(" none").ok()?;
    }
    Some(())
}
