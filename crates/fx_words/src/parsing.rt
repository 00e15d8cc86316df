//! The words of each command, read by `clap`: the command has its own name, and neither help nor version.
ghost use Rattle.std.specs.Prelude.{◌≡◌, IfOk, false, map, drop, option_and_then, string_bytes};
ghost use Rattle.clap.specs.Words.{app_of, kind_of, rule_of};
ghost use Rattle.fx_words.specs.Commands as spec;
ghost use Rattle.fx_words.specs.Parsed as parsed;

use crate::commands::{
    Command, CommandError, generate_parts, member_parts, query_parts, serve_parts, two_files,
};
use clap::error::ErrorKind;
use clap::{Arg, ArgAction, Error};
use std::alloc::{AllocError, Global};

// The two files that words name, behind the name of a command.
pub(crate) fn files_of<'a>(
    alloc: Global,
    name: &'a str,
    words: &'a [String],
) -> Result<(&'a str, &'a str), CommandError>
    ensures { spec.GivesFiles result (option_and_then spec.two_files (spec.positionals (drop 1 (map (λ w. string_bytes w) words.now)))) }
{
    let form = two_places(alloc, name, "FILE", "QUERY")?;
    match form.try_get_matches_from(words) {
        Ok(found) => two_files(found.get_str("FILE"), found.get_str("QUERY")),
        Err(error) => Err(refusal(&error)),
    }
}

// The query that words ask for.
pub(crate) fn query_of<'a>(alloc: Global, words: &'a [String]) -> Result<Command<'a>, CommandError>
    ensures asked { spec.GivesCommand result (option_and_then spec.query_asked (spec.query_words (drop 1 (map (λ w. string_bytes w) words.now)))) }
    ensures within { IfOk result (λ command. spec.IsWithin command) }
{
    let form = query_form(alloc)?;
    match form.try_get_matches_from(words) {
        Ok(found) => query_parts(
            found.get_str("REGISTRY"),
            found.get_str("QUERY"),
            found.get_str("workers"),
            found.get_str("block"),
        ),
        Err(error) => Err(refusal(&error)),
    }
}

// The serving that words ask for.
pub(crate) fn member_of<'a>(alloc: Global, words: &'a [String]) -> Result<Command<'a>, CommandError>
    ensures asked { spec.GivesCommand result (option_and_then spec.member_asked (spec.positionals (drop 1 (map (λ w. string_bytes w) words.now)))) }
    ensures within { IfOk result (λ command. spec.IsWithin command) }
{
    let form = member_form(alloc)?;
    match form.try_get_matches_from(words) {
        Ok(found) => member_parts(
            found.get_str("GRAPH"),
            found.get_str("ADDRESS"),
            found.get_str("COUNT"),
        ),
        Err(error) => Err(refusal(&error)),
    }
}

// The served federation that words ask for.
pub(crate) fn serve_of<'a>(alloc: Global, words: &'a [String]) -> Result<Command<'a>, CommandError>
    ensures asked { spec.GivesCommand result (option_and_then spec.serve_asked (spec.query_words (drop 1 (map (λ w. string_bytes w) words.now)))) }
    ensures within { IfOk result (λ command. spec.IsWithin command) }
{
    let form = serve_form(alloc)?;
    match form.try_get_matches_from(words) {
        Ok(found) => serve_parts(
            found.get_str("REGISTRY"),
            found.get_str("ADDRESS"),
            found.get_str("COUNT"),
            found.get_str("workers"),
            found.get_str("block"),
        ),
        Err(error) => Err(refusal(&error)),
    }
}

// The making that words ask for.
pub(crate) fn generate_of<'a>(
    alloc: Global,
    words: &'a [String],
) -> Result<Command<'a>, CommandError>
    ensures asked { spec.GivesCommand result (option_and_then spec.generate_asked (spec.positionals (drop 1 (map (λ w. string_bytes w) words.now)))) }
    ensures within { IfOk result (λ command. spec.IsWithin command) }
{
    let form = generate_form(alloc)?;
    match form.try_get_matches_from(words) {
        Ok(found) => generate_parts(found.get_str("N")),
        Err(error) => Err(refusal(&error)),
    }
}

// What a fault of the parser is: want of memory, or words that are no command.
fn refusal(error: &Error) -> CommandError
    ensures { result ≡ parsed.refusal_of (kind_of error.now) }
{
    match error.kind() {
        ErrorKind::OutOfMemory => CommandError::Memory,
        _ => CommandError::Usage,
    }
}

// ---- the forms

// query REGISTRY QUERY [--workers N] [--block B]
fn query_form<'a>(alloc: Global) -> Result<clap::Command<'a>, AllocError>
    ensures { IfOk result (λ form. app_of form ≡ parsed.query_app) }
{
    two_places(alloc, "query", "REGISTRY", "QUERY")?
        .arg(valued(alloc, "workers"))?
        .arg(valued(alloc, "block"))
}

// member GRAPH ADDRESS [COUNT]
fn member_form<'a>(alloc: Global) -> Result<clap::Command<'a>, AllocError>
    ensures { IfOk result (λ form. app_of form ≡ parsed.member_app) }
{
    two_places(alloc, "member", "GRAPH", "ADDRESS")?.arg(positional(alloc, "COUNT", false))
}

// serve REGISTRY ADDRESS [COUNT] [--workers N] [--block B]
fn serve_form<'a>(alloc: Global) -> Result<clap::Command<'a>, AllocError>
    ensures { IfOk result (λ form. app_of form ≡ parsed.serve_app) }
{
    two_places(alloc, "serve", "REGISTRY", "ADDRESS")?
        .arg(positional(alloc, "COUNT", false))?
        .arg(valued(alloc, "workers"))?
        .arg(valued(alloc, "block"))
}

// generate N
fn generate_form<'a>(alloc: Global) -> Result<clap::Command<'a>, AllocError>
    ensures { IfOk result (λ form. app_of form ≡ parsed.generate_app) }
{
    bare(alloc, "generate").arg(positional(alloc, "N", true))
}

// NAME FIRST SECOND, which both must stand there.
fn two_places<'a>(
    alloc: Global,
    name: &'a str,
    first: &'a str,
    second: &'a str,
) -> Result<clap::Command<'a>, AllocError>
    ensures { IfOk result (λ form. app_of form ≡ parsed.two_places name.now first.now second.now) }
{
    bare(alloc, name)
        .arg(positional(alloc, first, true))?
        .arg(positional(alloc, second, true))
}

fn bare<'a>(alloc: Global, name: &'a str) -> clap::Command<'a>
    ensures { app_of result ≡ parsed.bare name.now }
{
    clap::Command::new(alloc, name)
        .disable_help_flag(true)
        .disable_version_flag(true)
}

fn positional<'a>(alloc: Global, id: &'a str, required: bool) -> Arg<'a>
    ensures rule { rule_of result ≡ parsed.positional id.now required }
    ensures own { result.global ≡ false }
{
    Arg::new(alloc, id)
        .required(required)
        .action(ArgAction::Set)
}

fn valued<'a>(alloc: Global, name: &'a str) -> Arg<'a>
    ensures rule { rule_of result ≡ parsed.valued name.now }
    ensures own { result.global ≡ false }
{
    Arg::new(alloc, name).long(name).action(ArgAction::Set)
}
