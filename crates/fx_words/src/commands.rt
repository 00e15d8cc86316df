//! Command lines.
ghost use Rattle.std.specs.Prelude.{◌≡◌, ◌≤◌, IfOk, IfSome, drop, map, option_and_then, option_map, string_bytes};
ghost use Rattle.std.specs.Str.{bytes_eq};
ghost use Rattle.fx_words.specs.Commands as spec;
ghost use Rattle.fx_words.specs.Parsed as parsed;

use crate::numbers::number_to;
use crate::parsing::{files_of, generate_of, member_of, query_of, serve_of};
use std::alloc::{AllocError, AllocFailed, Global};

// The workers of a query, or of a served federation, whose words name no number, and the most that they may name.
const WORKERS: u32 = 4;

const MOST_WORKERS: u32 = 16;

// The rows in a block of one whose words name no number, and the most that they may name.
const BLOCK: u32 = 15;

const MOST_BLOCK: u32 = 64;

// The most persons of whom members are made.
const MOST_SIZE: u64 = 10_000;

/// A command.
#[derive(Clone, Copy)]
pub enum Command<'a> {
    /// Answers the query of a file over the graph of a file.
    Local {
        graph: &'a str,
        query: &'a str,
    },
    /// Answers the query of a file over the members of the registry of a file, with so many workers and so many rows in a block.
    Query {
        registry: &'a str,
        query: &'a str,
        workers: u32,
        block: u32,
    },
    /// Prints the plan of the query of a file over the members of the registry of a file.
    Explain {
        registry: &'a str,
        query: &'a str,
    },
    /// Serves the graph of a file at an address, for so many connections.
    Member {
        graph: &'a str,
        address: &'a str,
        count: u64,
    },
    /// Serves the members of the registry of a file at an address as one endpoint, for so many connections, with so many workers
    /// and so many rows in a block.
    Serve {
        registry: &'a str,
        address: &'a str,
        count: u64,
        workers: u32,
        block: u32,
    },
    /// Makes three members of so many persons in memory, and counts the rows of a query over them.
    Generate {
        size: u32,
    },
}

/// Why words are no command.
#[derive(Clone, Copy)]
pub enum CommandError {
    /// They are not of a form that the usage line names.
    Usage,
    /// Memory ran out.
    Memory,
}

impl<T: Drop> From<AllocFailed<T>> for CommandError {
    ghost use Rattle.std.specs.Prelude.{◌≡◌};
    ghost use Rattle.fx_words.specs.declared.commands.CommandError.TheVariants.{Memory};

    ghost from_gives = { λ _ e. e ≡ Memory };

    fn from(_error: AllocFailed<T>) -> CommandError {
        CommandError::Memory
    }
}

impl From<AllocError> for CommandError {
    ghost use Rattle.std.specs.Prelude.{◌≡◌};
    ghost use Rattle.fx_words.specs.declared.commands.CommandError.TheVariants.{Memory};

    ghost from_gives = { λ _ e. e ≡ Memory };

    fn from(_error: AllocError) -> CommandError {
        CommandError::Memory
    }
}

/// The command that the words after the program's name are. The first is the command's own. Behind `--` every word is a
/// positional; before it a word that begins with `-` and is longer than that is an option, and `query` and `serve` alone have options.
///
/// `--workers` and `--block` have a number as their value, which is the next word, or stands behind an equals sign in the same
/// one. Each stands once at most, before, between or behind the positionals.
pub fn read_command(alloc: Global, words: &[String]) -> Result<Command<'_>, CommandError>
    ensures asked { spec.GivesCommand result (spec.asked (map (λ w. string_bytes w) words.now)) }
    ensures within { IfOk result (λ command. spec.IsWithin command) }
{
    let Some(command) = words.first() else {
        return Err(CommandError::Usage);
    };
    if is_local(command.as_str()) {
        return local_of(alloc, words);
    }
    if is_query(command.as_str()) {
        return query_of(alloc, words);
    }
    if is_explain(command.as_str()) {
        return explain_of(alloc, words);
    }
    if is_member(command.as_str()) {
        return member_of(alloc, words);
    }
    if is_serve(command.as_str()) {
        return serve_of(alloc, words);
    }
    if is_generate(command.as_str()) {
        return generate_of(alloc, words);
    }
    Err(CommandError::Usage)
}

// The answering over a graph that words ask for.
fn local_of<'a>(alloc: Global, words: &'a [String]) -> Result<Command<'a>, CommandError>
    ensures asked { spec.GivesCommand result (spec.of_files spec.over_file (option_and_then spec.two_files (spec.positionals (drop 1 (map (λ w. string_bytes w) words.now))))) }
    ensures within { IfOk result (λ command. spec.IsWithin command) }
{
    match files_of(alloc, "local", words) {
        Ok((graph, query)) => Ok(Command::Local { graph, query }),
        Err(error) => Err(error),
    }
}

// The planning that words ask for.
fn explain_of<'a>(alloc: Global, words: &'a [String]) -> Result<Command<'a>, CommandError>
    ensures asked { spec.GivesCommand result (spec.of_files spec.planned (option_and_then spec.two_files (spec.positionals (drop 1 (map (λ w. string_bytes w) words.now))))) }
    ensures within { IfOk result (λ command. spec.IsWithin command) }
{
    match files_of(alloc, "explain", words) {
        Ok((registry, query)) => Ok(Command::Explain { registry, query }),
        Err(error) => Err(error),
    }
}

// ---- the commands, of what their words give

pub(crate) fn two_files<'a>(
    first: Option<&'a str>,
    second: Option<&'a str>,
) -> Result<(&'a str, &'a str), CommandError>
    ensures { spec.GivesFiles result (parsed.two_given (option_map (λ t. t.now) first.entry) (option_map (λ t. t.now) second.entry)) }
{
    match (first, second) {
        (Some(first), Some(second)) => Ok((first, second)),
        _ => Err(CommandError::Usage),
    }
}

pub(crate) fn query_parts<'a>(
    registry: Option<&'a str>,
    query: Option<&'a str>,
    workers: Option<&str>,
    block: Option<&str>,
) -> Result<Command<'a>, CommandError>
    ensures asked { spec.GivesCommand result (parsed.query_given (option_map (λ t. t.now) registry.entry) (option_map (λ t. t.now) query.entry) (option_map (λ t. t.now) workers.entry) (option_map (λ t. t.now) block.entry)) }
    ensures within { IfOk result (λ command. spec.IsWithin command) }
{
    let (registry, query) = two_files(registry, query)?;
    let Some(workers) = number_of(MOST_WORKERS, WORKERS, workers) else {
        return Err(CommandError::Usage);
    };
    let Some(block) = number_of(MOST_BLOCK, BLOCK, block) else {
        return Err(CommandError::Usage);
    };
    Ok(Command::Query {
        registry,
        query,
        workers,
        block,
    })
}

// The number that the value of an option gives, or one that stands for none.
fn number_of(most: u32, default: u32, value: Option<&str>) -> Option<u32>
    requires some { 1 ≤ default }
    requires fits { default ≤ most }
    ensures value { result ≡ spec.number_of most default (parsed.given (option_map (λ t. t.now) value.entry)) }
    ensures within { IfSome result (λ number. (1 ≤ number) × (number ≤ most)) }
{
    match value {
        None => Some(default),
        Some(value) => match number_to(most as u64, value) {
            Some(number) => Some(number as u32),
            None => None,
        },
    }
}

// Without a count there is no end.
pub(crate) fn member_parts<'a>(
    graph: Option<&'a str>,
    address: Option<&'a str>,
    count: Option<&str>,
) -> Result<Command<'a>, CommandError>
    ensures asked { spec.GivesCommand result (parsed.served_by (parsed.two_given (option_map (λ t. t.now) graph.entry) (option_map (λ t. t.now) address.entry)) (option_map (λ t. t.now) count.entry)) }
    ensures within { IfOk result (λ command. spec.IsWithin command) }
{
    let (graph, address) = two_files(graph, address)?;
    let Some(count) = count else {
        return Ok(Command::Member {
            graph,
            address,
            count: u64::MAX,
        });
    };
    match count_of(count) {
        Some(count) => Ok(Command::Member {
            graph,
            address,
            count,
        }),
        None => Err(CommandError::Usage),
    }
}

pub(crate) fn serve_parts<'a>(
    registry: Option<&'a str>,
    address: Option<&'a str>,
    count: Option<&str>,
    workers: Option<&str>,
    block: Option<&str>,
) -> Result<Command<'a>, CommandError>
    ensures asked { spec.GivesCommand result (parsed.serve_given (option_map (λ t. t.now) registry.entry) (option_map (λ t. t.now) address.entry) (option_map (λ t. t.now) count.entry) (option_map (λ t. t.now) workers.entry) (option_map (λ t. t.now) block.entry)) }
    ensures within { IfOk result (λ command. spec.IsWithin command) }
{
    let (registry, address) = two_files(registry, address)?;
    let Some(count) = connections(count) else {
        return Err(CommandError::Usage);
    };
    let Some(workers) = number_of(MOST_WORKERS, WORKERS, workers) else {
        return Err(CommandError::Usage);
    };
    let Some(block) = number_of(MOST_BLOCK, BLOCK, block) else {
        return Err(CommandError::Usage);
    };
    Ok(Command::Serve {
        registry,
        address,
        count,
        workers,
        block,
    })
}

// The number of connections that a word says, or as many as a number can say.
fn connections(count: Option<&str>) -> Option<u64>
    ensures { result ≡ spec.counted (parsed.given (option_map (λ t. t.now) count.entry)) }
{
    match count {
        None => Some(u64::MAX),
        Some(count) => count_of(count),
    }
}

pub(crate) fn generate_parts<'a>(size: Option<&str>) -> Result<Command<'a>, CommandError>
    ensures asked { spec.GivesCommand result (parsed.generate_given (option_map (λ t. t.now) size.entry)) }
    ensures within { IfOk result (λ command. spec.IsWithin command) }
{
    let Some(size) = size else {
        return Err(CommandError::Usage);
    };
    match size_of(size) {
        Some(size) => Ok(Command::Generate { size }),
        None => Err(CommandError::Usage),
    }
}

// The number of persons that a word says.
fn size_of(word: &str) -> Option<u32>
    ensures value { result ≡ spec.number_to 10000 word.now }
    ensures within { IfSome result (λ size. (1 ≤ size) × (size ≤ 10000)) }
{
    match number_to(MOST_SIZE, word) {
        Some(size) => Some(size as u32),
        None => None,
    }
}

// The number of connections that a word says.
fn count_of(word: &str) -> Option<u64>
    ensures { result ≡ spec.count_of word.now }
{
    number_to(u64::MAX, word)
}

// ---- the words of commands

fn is_local(word: &str) -> bool
    ensures { result ≡ bytes_eq word.now (spec.local_word) }
{
    word == "local"
}

fn is_query(word: &str) -> bool
    ensures { result ≡ bytes_eq word.now (spec.query_word) }
{
    word == "query"
}

fn is_explain(word: &str) -> bool
    ensures { result ≡ bytes_eq word.now (spec.explain_word) }
{
    word == "explain"
}

fn is_member(word: &str) -> bool
    ensures { result ≡ bytes_eq word.now (spec.member_word) }
{
    word == "member"
}

fn is_serve(word: &str) -> bool
    ensures { result ≡ bytes_eq word.now (spec.serve_word) }
{
    word == "serve"
}

fn is_generate(word: &str) -> bool
    ensures { result ≡ bytes_eq word.now (spec.generate_word) }
{
    word == "generate"
}
