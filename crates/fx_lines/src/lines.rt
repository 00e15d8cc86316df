//! Lines on standard error behind an answer or a plan: of members that are left out, and of SERVICEs that are down.
ghost use Rattle.std.specs.Prelude.{◌≡◌, ◌++◌, IfOk, OnOk, slice_get};
ghost use Rattle.std.specs.List.{flat_map};
ghost use Rattle.fx_lines.specs.MemberLines.{down_line, left_line};
ghost use Rattle.fx_lines.specs.MemberLines as spec;

use fx_outcomes::{Left, LeftCause, OutcomeInRounds, Round};
use fx_outside::Endpoint;
use fx_services::{Down, DownCause};
use fx_terms::Memory;
use std::alloc::Global;

/// The lines behind an answer: one for each member that is left out, round by round, and then one for each occurrence of SERVICE SILENT that is down.
pub fn answer_lines(
    alloc: Global,
    endpoints: &[Endpoint],
    all: &OutcomeInRounds,
) -> Result<Vec<u8>, Memory>
    ensures { IfOk result (λ lines. lines.items ≡ spec.answer_lines endpoints.now all.now) }
{
    noted_lines(
        alloc,
        endpoints,
        all.abandoned.as_slice(),
        all.outcome.down.as_slice(),
    )
}

/// One line for each member that these rounds leave out, round by round, and then one for each of these occurrences of SERVICE SILENT.
pub fn noted_lines(
    alloc: Global,
    endpoints: &[Endpoint],
    rounds: &[Round],
    down: &[Down],
) -> Result<Vec<u8>, Memory>
    ensures { IfOk result (λ lines. lines.items ≡ spec.noted_lines endpoints.now rounds.now down.now) }
{
    let mut lines = left_lines(alloc, endpoints, rounds)?;
    push_down_lines(&mut lines, down)?;
    Ok(lines)
}

/// One line for each member that these rounds leave out.
pub fn left_lines(
    alloc: Global,
    endpoints: &[Endpoint],
    rounds: &[Round],
) -> Result<Vec<u8>, Memory>
    ensures { IfOk result (λ lines. lines.items ≡ spec.left_lines endpoints.now rounds.now) }
{
    let mut lines = Vec::new(alloc);
    for round in rounds {
        push_left_lines(&mut lines, endpoints, round.left.as_slice())?;
    }
    Ok(lines)
}

fn push_left_lines(lines: &mut Vec<u8>, endpoints: &[Endpoint], left: &[Left]) -> Result<(), Memory>
    ensures { OnOk result (lines.new.items ≡ lines.old.items ++ flat_map (left_line endpoints.now) left.now) }
{
    for one in left {
        push_left(lines, endpoints, one)?;
    }
    Ok(())
}

fn push_left(lines: &mut Vec<u8>, endpoints: &[Endpoint], left: &Left) -> Result<(), Memory>
    ensures { OnOk result (lines.new.items ≡ lines.old.items ++ left_line endpoints.now left.now) }
{
    lines.extend_from_slice(b"left out ")?;
    lines.extend_from_slice(name_at(endpoints, left.at).as_bytes())?;
    lines.extend_from_slice(b": ")?;
    lines.extend_from_slice(left_words(&left.why).as_bytes())?;
    lines.extend_from_slice(b"\n")?;
    Ok(())
}

// The name of the endpoint of a number.
fn name_at(endpoints: &[Endpoint], at: u32) -> &str
    ensures { result.now ≡ spec.name_of (slice_get endpoints.now at) }
{
    match endpoints.get(at as usize) {
        Some(endpoint) => endpoint.name(),
        None => "",
    }
}

// Why a member is left out, in the words of its line.
fn left_words(why: &LeftCause) -> &'static str
    ensures { result.now ≡ spec.left_words why.now }
{
    match why {
        LeftCause::Failed => "wire failed",
        LeftCause::Bad(_) => "bad reply",
        LeftCause::TooLong { length: _ } => "request too long",
    }
}

fn push_down_lines(lines: &mut Vec<u8>, down: &[Down]) -> Result<(), Memory>
    ensures { OnOk result (lines.new.items ≡ lines.old.items ++ spec.down_lines down.now) }
{
    for one in down {
        push_down(lines, one)?;
    }
    Ok(())
}

fn push_down(lines: &mut Vec<u8>, down: &Down) -> Result<(), Memory>
    ensures { OnOk result (lines.new.items ≡ lines.old.items ++ down_line down.now) }
{
    lines.extend_from_slice(b"silent ")?;
    lines.extend_from_slice(down.iri.text().as_bytes())?;
    lines.extend_from_slice(b": ")?;
    lines.extend_from_slice(cause_words(&down.why).as_bytes())?;
    lines.extend_from_slice(b"\n")?;
    Ok(())
}

// Why an occurrence is down, in the words of its line.
fn cause_words(why: &DownCause) -> &'static str
    ensures { result.now ≡ spec.cause_words why.now }
{
    match why {
        DownCause::Failed => "wire failed",
        DownCause::Bad(_) => "bad reply",
        DownCause::TooLong { length: _ } => "request too long",
        DownCause::Unknown => "unknown endpoint",
    }
}
