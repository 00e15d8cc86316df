//! Tapes are written.
ghost use Rattle.std.specs.Prelude.{◌≡◌, ◌++◌, IfOk, OnOk};
ghost use Rattle.fx_tape.specs.Tapes as spec;

use crate::tapes::{Exchange, Tape};
use fx_terms::Memory;
use std::alloc::Global;

/// The bytes of a tape: a line `fedx transcript 1 block` and the rows of a batch; then the exchanges; then a line `end`.
///
/// An exchange with a reply is a line `exchange` with the number of its endpoint and how many bytes the request and the reply have, then the request and
/// LF, then the reply and LF. A failed one is a line `failed` with the number of its endpoint and the bytes of its request, then the request and LF.
/// Numbers are decimal. A tape that isn't in range is written too, and isn't read again.
pub fn write_tape(alloc: Global, tape: &Tape) -> Result<Vec<u8>, Memory>
    ensures { IfOk result (λ bytes. spec.IsWriting tape.now bytes.items) }
{
    let block = tape.block;
    let head = format!(in alloc; "fedx transcript 1 block {block}\n")?;
    let mut out = head.into_bytes();
    push_exchanges(alloc, &mut out, tape.exchanges.as_slice())?;
    out.extend_from_slice(b"end\n")?;
    Ok(out)
}

fn push_exchanges(alloc: Global, out: &mut Vec<u8>, exchanges: &[Exchange]) -> Result<(), Memory>
    ensures { OnOk result (out.new.items ≡ out.old.items ++ spec.exchanges_text exchanges.now) }
{
    for exchange in exchanges {
        push_exchange(alloc, out, exchange)?;
    }
    Ok(())
}

fn push_exchange(alloc: Global, out: &mut Vec<u8>, exchange: &Exchange) -> Result<(), Memory>
    ensures { OnOk result (out.new.items ≡ out.old.items ++ spec.exchange_text exchange.now) }
{
    match &exchange.reply {
        Some(reply) => push_answered(
            alloc,
            out,
            exchange.at,
            exchange.request.as_slice(),
            reply.as_slice(),
        ),
        None => push_failed(alloc, out, exchange.at, exchange.request.as_slice()),
    }
}

fn push_answered(
    alloc: Global,
    out: &mut Vec<u8>,
    at: u32,
    request: &[u8],
    reply: &[u8],
) -> Result<(), Memory>
    ensures { OnOk result (out.new.items ≡ out.old.items ++ spec.answered_text at request.now reply.now) }
{
    let size = request.len();
    let reply_size = reply.len();
    let head = format!(in alloc; "exchange {at} {size} {reply_size}\n")?;
    out.extend_from_slice(head.as_bytes())?;
    push_line(out, request)?;
    push_line(out, reply)
}

fn push_failed(alloc: Global, out: &mut Vec<u8>, at: u32, request: &[u8]) -> Result<(), Memory>
    ensures { OnOk result (out.new.items ≡ out.old.items ++ spec.failed_text at request.now) }
{
    let size = request.len();
    let head = format!(in alloc; "failed {at} {size}\n")?;
    out.extend_from_slice(head.as_bytes())?;
    push_line(out, request)
}

// Bytes and LF.
fn push_line(out: &mut Vec<u8>, bytes: &[u8]) -> Result<(), Memory>
    ensures { OnOk result (out.new.items ≡ out.old.items ++ spec.line bytes.now) }
{
    out.extend_from_slice(bytes)?;
    out.push(b'\n')?;
    Ok(())
}
