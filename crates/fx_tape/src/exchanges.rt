//! Exchanges, read one after the other.
ghost use Rattle.fx_tape.specs.Exchanges as spec;
ghost use Rattle.fx_tape.specs.Spellings.{Reads};

use crate::faults::Stop;
use crate::pieces::{after, block, number, word};
use crate::tapes::Exchange;
use fx_terms::Items;
use std::alloc::Global;

/// The greatest number of an endpoint.
const LAST_ENDPOINT: u32 = 63;

/// The most bytes of a request, and of a reply.
const LONGEST: u32 = 67_174_400;

/// The exchanges up to the end of a tape, and what is behind it.
pub fn exchanges<'a>(alloc: Global, bytes: &'a [u8]) -> Result<(Vec<Exchange>, &'a [u8]), Stop>
    ensures { Reads (λ x. (x.0.items, x.1.now)) spec.exchanges bytes.now result }
{
    let mut all = Vec::new(alloc);
    let mut left = bytes;
    'more: loop {
        let (said, behind) = next(alloc, left)?;
        left = behind;
        match said {
            Some(exchange) => all.push(exchange)?,
            None => return Ok((all, left)),
        }
    }
}

// The next exchange, or that the tape ends here.
fn next<'a>(alloc: Global, bytes: &'a [u8]) -> Result<(Option<Exchange>, &'a [u8]), Stop>
    ensures { Reads (λ x. (x.0, x.1.now)) spec.next bytes.now result }
{
    if bytes.len() == 0 {
        return Err(Stop::At(0));
    }
    if bytes[0] == b'f' {
        let (exchange, rest) = failed(alloc, after(bytes, 1))?;
        return Ok((Some(exchange), rest));
    }
    if bytes[0] == b'e' {
        return answered_or_end(alloc, after(bytes, 1));
    }
    Err(Stop::At(bytes.len()))
}

// The same, behind an `e`.
fn answered_or_end<'a>(alloc: Global, bytes: &'a [u8]) -> Result<(Option<Exchange>, &'a [u8]), Stop>
    ensures { Reads (λ x. (x.0, x.1.now)) spec.answered_or_end bytes.now result }
{
    if bytes.len() == 0 {
        return Err(Stop::At(0));
    }
    if bytes[0] == b'x' {
        let (exchange, rest) = answered(alloc, after(bytes, 1))?;
        return Ok((Some(exchange), rest));
    }
    if bytes[0] == b'n' {
        let rest = word(after(bytes, 1), b"d\n")?;
        return Ok((None, rest));
    }
    Err(Stop::At(bytes.len()))
}

// An exchange that failed, behind the first byte of its word.
fn failed<'a>(alloc: Global, bytes: &'a [u8]) -> Result<(Exchange, &'a [u8]), Stop>
    ensures { Reads (λ x. (x.0, x.1.now)) spec.failed bytes.now result }
{
    let rest = word(bytes, b"ailed ")?;
    let (at, rest) = number(rest, 0, LAST_ENDPOINT, b' ')?;
    let (size, rest) = number(rest, 0, LONGEST, b'\n')?;
    let (request, rest) = block(alloc, rest, size)?;
    let exchange = Exchange {
        at,
        request: Items::from_vec(request),
        reply: None,
    };
    Ok((exchange, rest))
}

// An exchange with a reply, behind the first two bytes of its word.
fn answered<'a>(alloc: Global, bytes: &'a [u8]) -> Result<(Exchange, &'a [u8]), Stop>
    ensures { Reads (λ x. (x.0, x.1.now)) spec.answered bytes.now result }
{
    let rest = word(bytes, b"change ")?;
    let (at, rest) = number(rest, 0, LAST_ENDPOINT, b' ')?;
    let (size, rest) = number(rest, 0, LONGEST, b' ')?;
    let (reply_size, rest) = number(rest, 0, LONGEST, b'\n')?;
    let (request, rest) = block(alloc, rest, size)?;
    let (reply, rest) = block(alloc, rest, reply_size)?;
    let exchange = Exchange {
        at,
        request: Items::from_vec(request),
        reply: Some(Items::from_vec(reply)),
    };
    Ok((exchange, rest))
}
