//! The calls of `fx_tape`.

use fx_notation::{escapes, shown};
use fx_tape::{Exchange, Tape, TapeError, read_tape, write_tape};
use fx_terms::Items;
use std::alloc::Global;
use std::fmt::Write;

/// What a call gives.
pub fn answer(alloc: Global, call: &str, inputs: &[&str]) -> Option<String> {
    let (first, parts) = inputs.split_first()?;
    match call {
        "read_tape" => told(alloc, escapes::bytes(alloc, first)?.as_slice()),
        "write_tape" => shown::bytes(alloc, written(alloc, first, parts)?.as_slice()),
        "read_tape of write_tape" => told(alloc, written(alloc, first, parts)?.as_slice()),
        _ => None,
    }
}

// The tape that bytes are, or where they stop being one.
fn told(alloc: Global, bytes: &[u8]) -> Option<String> {
    match read_tape(alloc, bytes) {
        Ok(tape) => of_tape(alloc, &tape),
        Err(TapeError::Form { place }) => format!(in alloc; "Form at {place}").ok(),
        Err(TapeError::Memory) => None,
    }
}

// The rows of a batch, and of each exchange the number of the endpoint, the request and the reply.
fn of_tape(alloc: Global, tape: &Tape) -> Option<String> {
    let block = tape.block;
    let mut text = format!(in alloc; "block {block}").ok()?;
    for exchange in tape.exchanges.as_slice() {
        push_exchange(alloc, &mut text, exchange)?;
    }
    Some(text)
}

fn push_exchange(alloc: Global, text: &mut String, exchange: &Exchange) -> Option<()> {
    let at = exchange.at;
    let request = shown::bytes(alloc, exchange.request.as_slice())?;
    match &exchange.reply {
        Some(reply) => {
            let reply = shown::bytes(alloc, reply.as_slice())?;
            write!(text, "; {at} [{request}] [{reply}]").ok()
        }
        None => write!(text, "; {at} [{request}] failed").ok(),
    }
}

// The bytes of a tape of so many rows a batch and of exchanges.
fn written(alloc: Global, block: &str, parts: &[&str]) -> Option<Vec<u8>> {
    let mut exchanges = Vec::new(alloc);
    for part in parts {
        exchanges.push(exchange_of(alloc, part)?).ok()?;
    }
    let tape = Tape {
        block: block.parse().ok()?,
        exchanges: Items::from_vec(exchanges),
    };
    write_tape(alloc, &tape).ok()
}

// The number of an endpoint, `|` and the request, and of an exchange that didn't fail `|` and the reply.
fn exchange_of(alloc: Global, part: &str) -> Option<Exchange> {
    let (at, behind) = part.split_once('|')?;
    let at: u32 = at.parse().ok()?;
    match behind.split_once('|') {
        Some((request, reply)) => {
            Some(Exchange {
                at,
                request: bytes_of(alloc, request)?,
                reply: Some(bytes_of(alloc, reply)?),
            })
        }
        None => {
            Some(Exchange {
                at,
                request: bytes_of(alloc, behind)?,
                reply: None,
            })
        }
    }
}

fn bytes_of(alloc: Global, field: &str) -> Option<Items<u8>> {
    Some(Items::from_vec(escapes::bytes(alloc, field)?))
}
