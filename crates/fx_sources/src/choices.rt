//! Which probes are missing, and which members are chosen.
ghost use Rattle.std.specs.Prelude.{◌≡◌, ◌≢◌, ◌<◌, [], ◌∷◌, ◌++◌, ◌&&◌, All, AllPairs, IfOk, OnOk, false, fold, if◌then◌else◌, length, map};
ghost use Rattle.indexmap.specs.IndexMap.{get};
ghost use Rattle.fx_algebra.specs.Units.{AreAllKept};
ghost use Rattle.fx_algebra.specs.Units as units;
ghost use Rattle.fx_keys.specs.Probes.{key_of, same_probe};
ghost use Rattle.fx_keys.specs.declared.probes.Probe.{Probe as TheProbe};
ghost use Rattle.fx_sources.specs.Probes as spec;

use crate::caches::AskCache;
use crate::patterns::patterns;
use crate::registries::Registry;
use fx_algebra::Query;
use fx_keys::{AskKey, Probe};
use fx_terms::{Items, Memory, Pattern};
use indexmap::{IndexMap, IndexSet};
use std::alloc::Global;

/// The members, by number, that each pattern of a query outside SERVICE is asked of, in text order.
#[derive(Drop)]
pub struct Sources {
    pub members: Items<Items<u32>>,
}

/// The probes of a query that the cache doesn't hold, each once: a member of the registry with the key of a pattern outside
/// SERVICE. They come by member, then by first occurrence of the key.
pub fn missing(
    alloc: Global,
    query: &Query,
    registry: &Registry,
    cache: &AskCache,
) -> Result<Vec<Probe>, Memory>
    ensures probes { IfOk result (λ probes. probes.items ≡ spec.missing query.now (length registry.now) cache.now) }
    ensures distinct { IfOk result (λ probes. AllPairs ◌≢◌ probes.items) }
    ensures news { IfOk result (λ probes. All (λ p. spec.is_held cache.now p ≡ false) probes.items) }
    ensures within { IfOk result (λ probes. All (λ p. p.at < length registry.now) probes.items) }
{
    let kept = all_kept(alloc, registry.endpoints().len())?;
    let probes = missing_of_kept(alloc, query, registry, kept.as_slice(), cache)?;
    Ok(probes)
}

/// The probes of a query that the cache doesn't hold, as `missing` gives them, of the members that are kept alone. `kept` tells
/// of each member, by its number, whether it is; one that it is too short for isn't.
pub fn missing_of_kept(
    alloc: Global,
    query: &Query,
    registry: &Registry,
    kept: &[bool],
    cache: &AskCache,
) -> Result<Vec<Probe>, Memory>
    ensures probes { IfOk result (λ probes. probes.items ≡ spec.kept_probes kept.now (spec.missing query.now (length registry.now) cache.now)) }
    ensures distinct { IfOk result (λ probes. AllPairs ◌≢◌ probes.items) }
    ensures news { IfOk result (λ probes. All (λ p. spec.is_held cache.now p ≡ false) probes.items) }
    ensures within { IfOk result (λ probes. All (λ p. p.at < length registry.now) probes.items) }
{
    let count = registry.endpoints().len() as u32;
    let probes = missing_probes(alloc, query, count, kept, cache)?;
    Ok(probes)
}

// Marks that keep each of so many members.
fn all_kept(alloc: Global, members: usize) -> Result<Vec<bool>, Memory>
    ensures { IfOk result (λ kept. AreAllKept kept.items members) }
{
    let kept = vec![in alloc; true; members]?;
    Ok(kept)
}

fn missing_probes(
    alloc: Global,
    query: &Query,
    members: u32,
    kept: &[bool],
    cache: &AskCache,
) -> Result<Vec<Probe>, Memory>
    ensures { IfOk result (λ probes. probes.items ≡ spec.kept_probes kept.now (spec.missing query.now members cache.now)) }
{
    let patterns = patterns(alloc, query)?;
    let keys = keys_once(alloc, patterns.as_slice())?;
    let mut probes = Vec::new(alloc);
    for at in 0..members {
        add_kept(alloc, &mut probes, cache, keys.as_slice(), kept, at)?;
    }
    Ok(probes)
}

/// The members, by number, whose answer to the key of a pattern is yes, in the cache or in the truths that answer the missing
/// probes, for each pattern of a query outside SERVICE.
pub fn choose(
    alloc: Global,
    query: &Query,
    registry: &Registry,
    cache: &AskCache,
    probes: &[Probe],
    truths: &[bool],
) -> Result<Sources, Memory>
    requires asked { probes.now ≡ spec.missing query.now (length registry.now) cache.now }
    requires lengths { length probes.now ≡ length truths.now }
    ensures chosen { IfOk result (λ sources. sources.members ≡ spec.chosen query.now (length registry.now) (spec.told probes.now truths.now ++ cache.now)) }
    ensures within { IfOk result (λ sources. All (All (λ at. at < length registry.now)) sources.members) }
{
    let kept = all_kept(alloc, registry.endpoints().len())?;
    let sources = choose_of_kept(
        alloc,
        query,
        registry,
        kept.as_slice(),
        cache,
        probes,
        truths,
    )?;
    Ok(sources)
}

/// The members, by number, that are kept and whose answer to the key of a pattern is yes, in the cache or in the truths that
/// answer the missing probes of kept members, for each pattern of a query outside SERVICE. `kept` tells of each member, by its
/// number, whether it is; one that it is too short for isn't.
pub fn choose_of_kept(
    alloc: Global,
    query: &Query,
    registry: &Registry,
    kept: &[bool],
    cache: &AskCache,
    probes: &[Probe],
    truths: &[bool],
) -> Result<Sources, Memory>
    requires asked { probes.now ≡ spec.kept_probes kept.now (spec.missing query.now (length registry.now) cache.now) }
    requires lengths { length probes.now ≡ length truths.now }
    ensures chosen { IfOk result
        (λ sources. sources.members
        ≡ map (spec.kept_members kept.now) (spec.chosen query.now (length registry.now) (spec.told probes.now truths.now ++ cache.now))) }
    ensures within { IfOk result (λ sources. All (All (λ at. at < length registry.now)) sources.members) }
{
    let patterns = patterns(alloc, query)?;
    let answers = answers(alloc, probes, truths)?;
    let count = registry.endpoints().len() as u32;
    Ok(Sources {
        members: members_for_all(alloc, count, kept, cache, &answers, patterns.as_slice())?,
    })
}

// Whether a member is kept.
fn is_kept(kept: &[bool], at: u32) -> bool
    ensures { result ≡ units.is_kept kept.now at }
{
    match kept.get(at as usize) {
        Some(mark) => *mark,
        None => false,
    }
}

// The keys of patterns, each once, at its first place.
fn keys_once(alloc: Global, patterns: &[Pattern]) -> Result<Vec<AskKey>, Memory>
    ensures { IfOk result (λ keys. keys.items ≡ fold spec.with_key [] (map key_of patterns.now)) }
{
    let mut keys = IndexSet::new(alloc);
    for pattern in patterns {
        keys.insert(AskKey::of(alloc, pattern)?)?;
    }
    Ok(keys.into_iter().collect(alloc)?)
}

// The probes of a member that the cache doesn't hold, where it is kept, behind those that were there.
fn add_kept(
    alloc: Global,
    probes: &mut Vec<Probe>,
    cache: &AskCache,
    keys: &[AskKey],
    kept: &[bool],
    at: u32,
) -> Result<(), Memory>
    ensures { OnOk result (probes.new.items ≡ probes.old.items ++ spec.kept_probes kept.now (spec.missing_at cache.now keys.now at)) }
{
    if is_kept(kept, at) {
        add_missing(alloc, probes, cache, keys, at)?;
    }
    Ok(())
}

// The probes of a member that the cache doesn't hold, behind those that were there.
fn add_missing(
    alloc: Global,
    probes: &mut Vec<Probe>,
    cache: &AskCache,
    keys: &[AskKey],
    at: u32,
) -> Result<(), Memory>
    ensures { OnOk result (probes.new.items ≡ probes.old.items ++ spec.missing_at cache.now keys.now at) }
{
    for key in keys {
        let probe = Probe {
            at,
            key: key.copy(alloc)?,
        };
        if cache.known(&probe).is_none() {
            probes.push(probe)?;
        }
    }
    Ok(())
}

// The truths by their probes.
fn answers(
    alloc: Global,
    probes: &[Probe],
    truths: &[bool],
) -> Result<IndexMap<Probe, bool>, Memory>
    ensures { IfOk result (λ answers. (p : TheProbe) → get same_probe answers p ≡ spec.known (spec.told probes.now truths.now) p) }
{
    let mut answers = IndexMap::new(alloc);
    for (probe, truth) in probes.iter().zip(truths) {
        answers.insert(probe.copy(alloc)?, *truth)?;
    }
    Ok(answers)
}

// The kept members whose answer to the key of each pattern is yes.
fn members_for_all(
    alloc: Global,
    members: u32,
    kept: &[bool],
    cache: &AskCache,
    answers: &IndexMap<Probe, bool>,
    patterns: &[Pattern],
) -> Result<Items<Items<u32>>, Memory>
    ensures { IfOk result
        (λ chosen. chosen
        ≡ map (λ p. spec.kept_members kept.now (spec.members_of (answers.now.entries ++ cache.now) members (key_of p))) patterns.now) }
{
    let mut chosen = Items::new(alloc);
    for pattern in patterns {
        chosen.push(members_for(alloc, members, kept, cache, answers, pattern)?)?;
    }
    Ok(chosen)
}

// The kept members whose answer to the key of a pattern is yes.
fn members_for(
    alloc: Global,
    members: u32,
    kept: &[bool],
    cache: &AskCache,
    answers: &IndexMap<Probe, bool>,
    pattern: &Pattern,
) -> Result<Items<u32>, Memory>
    ensures { IfOk result
        (λ chosen. chosen ≡ spec.kept_members kept.now (spec.members_of (answers.now.entries ++ cache.now) members (key_of pattern.now))) }
{
    let mut probe = Probe {
        at: 0,
        key: AskKey::of(alloc, pattern)?,
    };
    members_of(alloc, members, kept, cache, answers, &mut probe)
}

// The kept members whose answer to the key of a probe is yes.
fn members_of(
    alloc: Global,
    members: u32,
    kept: &[bool],
    cache: &AskCache,
    answers: &IndexMap<Probe, bool>,
    probe: &mut Probe,
) -> Result<Items<u32>, Memory>
    ensures { IfOk result
        (λ chosen. chosen ≡ spec.kept_members kept.now (spec.members_of (answers.now.entries ++ cache.now) members probe.old.key)) }
{
    let mut chosen = Items::new(alloc);
    for at in 0..members {
        probe.at = at;
        let yes = is_chosen(kept, cache, answers, probe);
        add_member(&mut chosen, at, yes)?;
    }
    Ok(chosen)
}

// One more member, where it is chosen.
fn add_member(chosen: &mut Items<u32>, at: u32, yes: bool) -> Result<(), Memory>
    ensures { OnOk result (chosen.new ≡ chosen.old ++ (if yes then at ∷ [] else [])) }
{
    if yes {
        chosen.push(at)?;
    }
    Ok(())
}

// Whether a probe's answer is yes, and its member is kept.
fn is_chosen(
    kept: &[bool],
    cache: &AskCache,
    answers: &IndexMap<Probe, bool>,
    probe: &Probe,
) -> bool
    ensures { result ≡ spec.is_yes (spec.known (answers.now.entries ++ cache.now) probe.now) && units.is_kept kept.now probe.now.at }
{
    is_yes(cache, answers, probe) && is_kept(kept, probe.at)
}

// Whether a probe's answer is yes.
fn is_yes(cache: &AskCache, answers: &IndexMap<Probe, bool>, probe: &Probe) -> bool
    ensures { result ≡ spec.is_yes (spec.known (answers.now.entries ++ cache.now) probe.now) }
{
    match answers.get(probe) {
        Some(truth) => *truth,
        None => match cache.known(probe) {
            Some(truth) => truth,
            None => false,
        },
    }
}
