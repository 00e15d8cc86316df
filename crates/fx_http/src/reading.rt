//! Reading from sources.
ghost use Rattle.std.specs.Prelude.{◌≡◌, ◌≢◌, ◌<◌, ◌≤◌, ◌++◌, ◌⊎◌, [], drop, take, IsTrue, IsErr, IfOk, IfErr, OnErr, option_to_list};
ghost use Rattle.fx_outside.specs.Faults.{HasRisen};
ghost use Rattle.fx_http.specs.Answers.{IsRestWithin};

use crate::read_requests::RequestError;
use fx_outside::{ReadFailed, Source};
use std::alloc::Global;

const PIECE: usize = 4096;

// The next byte, or nothing at the end of the input.
pub fn read_byte<S: Source>(source: &mut S) -> Result<Option<u8>, ReadFailed>
    ensures taken { IsTrue S.tells_left → IfOk result (λ b. S.left source.old ≡ option_to_list b ++ S.left source.new) }
    ensures ends { IsTrue S.tells_left → IfOk result (λ b. b ≡ None → S.left source.old ≡ []) }
    ensures unread { IsTrue S.tells_left → OnErr result (S.left source.new ≡ S.left source.old) }
    ensures kept { S.read_faults source.old ≤ S.read_faults source.new }
    ensures failed { IsErr result → HasRisen (S.read_faults source.old) (S.read_faults source.new) }
    ensures faultless { IfOk result (λ _. S.read_faults source.new ≡ S.read_faults source.old) }
    ensures held { IsTrue S.tells_held → S.held source.new ≡ S.held source.old }
    ensures writes { S.write_faults source.new ≡ S.write_faults source.old }
{
    let mut byte = [0; 1];
    let count = source.read(&mut byte)?;
    Ok(if count == 0 { None } else { Some(byte[0]) })
}

// The first bytes, as many as are asked for and the input has.
pub fn read_up_to<S: Source>(
    alloc: Global,
    source: &mut S,
    most: usize,
) -> Result<Vec<u8>, RequestError>
    ensures read { IsTrue S.tells_left → IfOk result (λ bytes. (bytes.items ≡ take most (S.left source.old)) × (S.left source.new ≡ drop most (S.left source.old))) }
    ensures rest { IsTrue S.tells_left → IsRestWithin most (S.left source.old) (S.left source.new) }
    ensures lost { IfErr result (λ e. (e ≡ RequestError.Fault) ⊎ (e ≡ RequestError.Memory)) }
    ensures kept { S.read_faults source.old ≤ S.read_faults source.new }
    ensures failed { result ≡ Err RequestError.Fault → HasRisen (S.read_faults source.old) (S.read_faults source.new) }
    ensures faultless { result ≢ Err RequestError.Fault → S.read_faults source.new ≡ S.read_faults source.old }
    ensures held { IsTrue S.tells_held → S.held source.new ≡ S.held source.old }
    ensures writes { S.write_faults source.new ≡ S.write_faults source.old }
{
    let mut bytes = Vec::new(alloc);
    let mut buffer = [0; PIECE];
    while bytes.len() < most {
        let room = room_for(most - bytes.len());
        let piece = &mut buffer[..room];
        let count = source.read(piece)?;
        if count == 0 {
            return Ok(bytes);
        }
        bytes.extend_from_slice(&piece[..count])?;
    }
    Ok(bytes)
}

// How many of the bytes that are missing one read may bring.
fn room_for(missing: usize) -> usize
    ensures some { 0 < missing → 0 < result }
    ensures needed { result ≤ missing }
    ensures few { result ≤ 4096 }
{
    missing.min(PIECE)
}
