//! The parts of a query by what its endpoints answer to ASKs.
ghost use Rattle.std.specs.Prelude.{◌≡◌, ◌++◌, [], ◌∷◌, All, IfOk, List, OnOk, length};
ghost use Rattle.std.specs.List.{zip};
ghost use Rattle.fx_terms.specs.declared.triples.Triple.{Triple};
ghost use Rattle.fx_algebra.specs.Units as units;
ghost use Rattle.fx_plan.specs.Explained.{HasMembers};
ghost use Rattle.fx_sources.specs.Probes.{missing as missing_probes};
ghost use Rattle.fx_sources.specs.Sources.{Tells};
ghost use Rattle.fx_walks.specs.Sections.{parts_with};
ghost use Rattle.fx_outcomes.specs.Choices.{of_members, probes_in, truths_of};
ghost use Rattle.fx_outcomes.specs.Rounds.{AreAnswers, AreStillKept, kept_choice, kept_entries};

use crate::rounds::Answers;
use fx_algebra::Query;
use fx_plan::Part;
use fx_sources::{AskCache, Probe, Registry, choose_of_kept};
use fx_terms::Memory;
use fx_walks::parts::parts;
use std::alloc::Global;

/// The parts of a query over the kept members of a registry, by what the cache holds and the answers to what it lacked. `kept` tells of each member, by its number,
/// whether it is kept, and keeps none that the answers leave out. Where the graphs are told, each pattern has those of its sources that are kept.
pub fn parts_of_kept(
    alloc: Global,
    query: &Query,
    registry: &Registry,
    cache: &AskCache,
    answers: &Answers,
    kept: &[bool],
) -> Result<Vec<Part>, Memory>
    requires fit { AreAnswers registry.now (missing_probes query.now (length registry.now) cache.now) answers.now }
    requires still { AreStillKept kept.now answers.now.kept.items }
    ensures parts { IfOk result (λ parts. parts.items
        ≡ parts_with (kept_choice kept.now (kept_entries kept.now (zip answers.now.probes.items answers.now.truths.items) cache.now) (length registry.now)) query.now) }
    ensures within { IfOk result (λ parts. All (HasMembers (length registry.now)) parts.items) }
    ensures sources { IfOk result (λ parts. (graphs : List (List Triple)) → length graphs ≡ length registry.now → All (Tells graphs) cache.now
        → All (Tells graphs) (zip answers.now.probes.items answers.now.truths.items)
        → parts.items ≡ parts_with (units.sources (units.of_kept kept.now graphs)) query.now) }
{
    let (probes, truths) = answers_of_kept(alloc, answers, kept)?;
    let sources = choose_of_kept(
        alloc,
        query,
        registry,
        kept,
        cache,
        probes.as_slice(),
        truths.as_slice(),
    )?;
    parts(alloc, query, sources.members.as_slice())
}

// The probes of kept members that have an answer, and their answers.
fn answers_of_kept(
    alloc: Global,
    answers: &Answers,
    kept: &[bool],
) -> Result<(Vec<Probe>, Vec<bool>), Memory>
    ensures probes { IfOk result (λ known. known.0.items ≡ probes_in (of_members kept.now (zip answers.now.probes.items answers.now.truths.items))) }
    ensures truths { IfOk result (λ known. known.1.items ≡ truths_of (of_members kept.now (zip answers.now.probes.items answers.now.truths.items))) }
{
    let mut probes = Vec::new(alloc);
    let mut truths = Vec::new(alloc);
    for (probe, truth) in answers.probes.iter().zip(answers.truths.as_slice()) {
        add_kept(alloc, &mut probes, &mut truths, kept, probe, *truth)?;
    }
    Ok((probes, truths))
}

// One more probe with its answer, where its member is kept.
fn add_kept(
    alloc: Global,
    probes: &mut Vec<Probe>,
    truths: &mut Vec<bool>,
    kept: &[bool],
    probe: &Probe,
    truth: bool,
) -> Result<(), Memory>
    ensures probes { OnOk result (probes.new.items ≡ probes.old.items ++ probes_in (of_members kept.now ((probe.now, truth) ∷ []))) }
    ensures truths { OnOk result (truths.new.items ≡ truths.old.items ++ truths_of (of_members kept.now ((probe.now, truth) ∷ []))) }
{
    if is_kept(kept, probe.at) {
        probes.push(probe.copy(alloc)?)?;
        truths.push(truth)?;
    }
    Ok(())
}

// Whether a member is kept.
fn is_kept(kept: &[bool], at: u32) -> bool
    ensures { result ≡ units.is_kept kept.now at }
{
    match kept.get(at as usize) {
        Some(mark) => *mark,
        None => false,
    }
}
