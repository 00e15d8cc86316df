//! Rounds: a query is asked of the members that are kept, and anew where one of them is left out.
ghost use Rattle.std.specs.Prelude.{◌≡◌, ◌≢◌, ◌<◌, ◌≤◌, ◌++◌, ◌∷◌, [], All, AllPairs, IfOk, None, OnOk, false, length, true};
ghost use Rattle.fx_grammar.specs.Accepted.{IsSpellable};
ghost use Rattle.fx_outcomes.specs.InRounds.{by_asks};
ghost use Rattle.fx_outcomes.specs.Rounds.{AreAnswers, AreStillKept, without_all};
ghost use Rattle.fx_sources.specs.Probes.{is_held, missing};
ghost use Rattle.fx_traffic.specs.Gains.{seen};
ghost use Rattle.fx_walks.specs.Unknown.{unknown_of};
ghost use Rattle.fx_engine.specs.Rounds.{AreLearned, IsLearned, IsPlanBehind, RoundOver, WentBehindAsks, WentOver};

use crate::outcomes::outcome_by_plan;
use crate::questions::Question;
use fx_algebra::Query;
use fx_outcomes::choices::parts_of_kept;
use fx_outcomes::{Answers, Ended, FedError, Left, OutcomeInRounds, PlanInRounds, Round};
use fx_services::DoesJobs;
use fx_side_by_side::DoesFlows;
use fx_sources::{AskCache, Registry};
use fx_terms::{Items, Memory};
use fx_wire::Wire;
use std::alloc::Global;

/// The outcome of a query behind its ASKs: in rounds, over the members that these kept. Then the cache learns their answers.
pub(crate) fn behind_asks<H: DoesJobs<W> + DoesFlows<W>, W: Wire>(
    hands: &H,
    alloc: Global,
    question: &Question<'_>,
    cache: &mut AskCache,
    answers: Answers,
    wires: &mut [W],
) -> Result<OutcomeInRounds, FedError>
    requires hands { H.does hands.now × H.flows hands.now }
    requires wired { (0 < length wires.old) × (length wires.old ≤ 16) }
    requires spellable { IsSpellable question.now.query.now }
    requires known { unknown_of question.now.registry.now question.now.query.now ≡ None }
    requires fit { AreAnswers question.now.registry.now (missing question.now.query.now (length question.now.registry.now) cache.old) answers }
    ensures { WentBehindAsks (seen W.Wire wires.old wires.new) question.now cache.old cache.new answers result }
{
    match copied(alloc, answers.kept.as_slice()) {
        Err(Memory) => Err(FedError::Memory),
        Ok(kept) => match in_rounds(hands, alloc, question, cache, &answers, kept, wires) {
            Err(error) => Err(error),
            Ok(rounds) => learned(alloc, cache, answers, rounds),
        },
    }
}

// The marks again.
fn copied(alloc: Global, kept: &[bool]) -> Result<Vec<bool>, Memory>
    ensures { IfOk result (λ marks. marks.items ≡ kept.now) }
{
    let marks = Vec::from_slice(alloc, kept)?;
    Ok(marks)
}

/// The plan of a query behind its ASKs, over the members that these kept. Then the cache learns their answers.
pub(crate) fn plan_behind_asks(
    alloc: Global,
    query: &Query,
    registry: &Registry,
    cache: &mut AskCache,
    answers: Answers,
) -> Result<PlanInRounds, FedError>
    requires fit { AreAnswers registry.now (missing query.now (length registry.now) cache.old) answers }
    ensures { IsPlanBehind registry.now query.now cache.old cache.new answers result }
{
    match parts_of_kept(
        alloc,
        query,
        registry,
        cache,
        &answers,
        answers.kept.as_slice(),
    ) {
        Err(Memory) => Err(FedError::Memory),
        Ok(parts) => match learn(alloc, cache, answers, Items::new(alloc)) {
            Err(Memory) => Err(FedError::Memory),
            Ok(abandoned) => Ok(PlanInRounds { parts, abandoned }),
        },
    }
}

// What the rounds gave, where the cache has learned.
fn learned(
    alloc: Global,
    cache: &mut AskCache,
    answers: Answers,
    rounds: OutcomeInRounds,
) -> Result<OutcomeInRounds, FedError>
    requires many { length answers.probes.items ≡ length answers.truths.items }
    requires distinct { AllPairs ◌≢◌ answers.probes.items }
    requires news { All (λ p. is_held cache.old p ≡ false) answers.probes.items }
    ensures { IsLearned cache.old cache.new answers rounds result }
{
    let OutcomeInRounds { outcome, abandoned } = rounds;
    match learn(alloc, cache, answers, abandoned) {
        Err(Memory) => Err(FedError::Memory),
        Ok(abandoned) => Ok(OutcomeInRounds { outcome, abandoned }),
    }
}

// The cache learns the answers, and the round of the ASKs stands in front of those that were abandoned, where these left somebody out.
fn learn(
    alloc: Global,
    cache: &mut AskCache,
    answers: Answers,
    rounds: Items<Round>,
) -> Result<Items<Round>, Memory>
    requires many { length answers.probes.items ≡ length answers.truths.items }
    requires distinct { AllPairs ◌≢◌ answers.probes.items }
    requires news { All (λ p. is_held cache.old p ≡ false) answers.probes.items }
    ensures { AreLearned cache.old cache.new answers rounds result }
{
    let Answers {
        probes,
        truths,
        kept: _,
        left,
    } = answers;
    match with_asks(alloc, left, rounds) {
        Err(Memory) => Err(Memory),
        Ok(all) => match cache.learn(probes, truths.as_slice()) {
            Err(Memory) => Err(Memory),
            Ok(()) => Ok(all),
        },
    }
}

// The rounds with that of the ASKs in front, where these left somebody out.
fn with_asks(alloc: Global, left: Vec<Left>, rounds: Items<Round>) -> Result<Items<Round>, Memory>
    ensures { IfOk result (λ all. all ≡ by_asks left.items ++ rounds) }
{
    if left.is_empty() {
        return Ok(rounds);
    }
    let mut all = Items::new(alloc);
    all.push(Round {
        left: Items::from_vec(left),
        down: Items::new(alloc),
    })?;
    all.append(rounds)?;
    Ok(all)
}

/// The outcome of a query in rounds, over the members that are kept at first. A round in which a batch is refused at a member that is marked as optional is abandoned, and the rest is asked
/// anew, so each abandoned round leaves one member out.
pub(crate) fn in_rounds<H: DoesJobs<W> + DoesFlows<W>, W: Wire>(
    hands: &H,
    alloc: Global,
    question: &Question<'_>,
    cache: &AskCache,
    answers: &Answers,
    kept: Vec<bool>,
    wires: &mut [W],
) -> Result<OutcomeInRounds, FedError>
    requires hands { H.does hands.now × H.flows hands.now }
    requires wired { (0 < length wires.old) × (length wires.old ≤ 16) }
    requires spellable { IsSpellable question.now.query.now }
    requires known { unknown_of question.now.registry.now question.now.query.now ≡ None }
    requires fit { AreAnswers question.now.registry.now (missing question.now.query.now (length question.now.registry.now) cache.now) answers.now }
    requires all { kept.items ≡ answers.now.kept.items }
    ensures { WentOver (seen W.Wire wires.old wires.new) question.now cache.now answers.now result }
{
    let mut kept = kept;
    let mut rounds = Vec::new(alloc);
    loop {
        match round(
            hands,
            alloc,
            question,
            cache,
            answers,
            kept.as_slice(),
            wires,
        ) {
            Err(error) => return Err(error),
            Ok(Ended::Answered(outcome)) => return Ok(OutcomeInRounds {
                outcome,
                abandoned: Items::from_vec(rounds),
            }),
            Ok(Ended::Abandoned(round)) => {
                if abandon(&mut kept, &mut rounds, round).is_err() {
                    return Err(FedError::Memory);
                }
            }
        }
    }
}

// One round, over the members that are kept.
fn round<H: DoesJobs<W> + DoesFlows<W>, W: Wire>(
    hands: &H,
    alloc: Global,
    question: &Question<'_>,
    cache: &AskCache,
    answers: &Answers,
    kept: &[bool],
    wires: &mut [W],
) -> Result<Ended, FedError>
    requires hands { H.does hands.now × H.flows hands.now }
    requires wired { (0 < length wires.old) × (length wires.old ≤ 16) }
    requires spellable { IsSpellable question.now.query.now }
    requires known { unknown_of question.now.registry.now question.now.query.now ≡ None }
    requires fit { AreAnswers question.now.registry.now (missing question.now.query.now (length question.now.registry.now) cache.now) answers.now }
    requires still { AreStillKept kept.now answers.now.kept.items }
    ensures { RoundOver (seen W.Wire wires.old wires.new) question.now cache.now answers.now kept.now result }
{
    match parts_of_kept(
        alloc,
        question.query,
        question.registry,
        cache,
        answers,
        kept,
    ) {
        Err(Memory) => Err(FedError::Memory),
        Ok(parts) => outcome_by_plan(hands, alloc, question, parts, wires),
    }
}

// Notes a round that was abandoned, and leaves its members out.
fn abandon(kept: &mut Vec<bool>, rounds: &mut Vec<Round>, round: Round) -> Result<(), Memory>
    requires { All (λ l. l.at < length kept.old.items) round.left }
    ensures kept { OnOk result (kept.new.items ≡ without_all round.left kept.old.items) }
    ensures rounds { OnOk result (rounds.new.items ≡ rounds.old.items ++ round ∷ []) }
{
    leave(kept.as_mut_slice(), round.left.as_slice());
    rounds.push(round)?;
    Ok(())
}

// These members are kept no more.
fn leave(kept: &mut [bool], left: &[Left])
    requires { All (λ l. l.at < length kept.old) left.now }
    ensures { kept.new ≡ without_all left.now kept.old }
{
    for one in left {
        kept[one.at as usize] = false;
    }
}
