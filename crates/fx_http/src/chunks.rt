//! Chunked bodies.
ghost use Rattle.std.specs.Prelude.{◌≡◌, ◌↔◌, ℕ, ◌+◌, ◌∷◌, ◌++◌, List, length, IfSome, IfNone, IfOk, IsTrue, ◌≤◌, ◌<◌};
ghost use Rattle.httparse.specs.Grammar.{ReadsChunkLine, ChunkLine, chunk_size, HasNoChunkLine};
ghost use Rattle.fx_http.specs.Chunks.{Joins, IsTrailer};

use crate::slices::{after, front};
use httparse::spans::{EMPTY_HEADER_SPAN, parse_headers};
use httparse::{Status, parse_chunk_size};
use std::alloc::{AllocError, Global};

// What the chunks hold, or nothing where the bytes are no chunked body.
pub fn joined(alloc: Global, bytes: &[u8]) -> Result<Option<Vec<u8>>, AllocError>
    ensures { IfOk result (Joins bytes.now) }
{
    let mut body = Vec::new(alloc);
    let mut left = bytes;
    while let Some((size, behind)) = size_line(left) {
        if size == 0 {
            return Ok(if is_trailer(behind) { Some(body) } else { None });
        }
        let Some((chunk, more)) = chunk(behind, size) else {
            return Ok(None);
        };
        body.extend_from_slice(chunk)?;
        left = more;
    }
    Ok(None)
}

// The size on the line that the bytes begin with, and what is behind the line.
fn size_line(bytes: &[u8]) -> Option<(u64, &[u8])>
    ensures some { IfSome result (λ r. (l : ChunkLine) × ReadsChunkLine bytes.now l r.1.now × (r.0 ≡ chunk_size l)) }
    ensures shorter { IfSome result (λ r. length r.1.now ≤ length bytes.now) }
    ensures none { IfNone result (HasNoChunkLine bytes.now) }
{
    match parse_chunk_size(bytes) {
        Ok(Status::Complete((end, size))) => Some((size, after(bytes, end))),
        Ok(Status::Partial) => None,
        Err(_) => None,
    }
}

// So many bytes, and what is behind them and their CR LF.
fn chunk(bytes: &[u8], size: u64) -> Option<(&[u8], &[u8])>
    ensures some { IfSome result (λ r. (length r.0.now ≡ size) × (bytes.now ≡ r.0.now ++ 13 ∷ 10 ∷ r.1.now)) }
    ensures shorter { IfSome result (λ r. length r.1.now < length bytes.now) }
    ensures none { IfNone result ((chunk rest : List ℕ) → length chunk ≡ size → ¬ (bytes.now ≡ chunk ++ 13 ∷ 10 ∷ rest)) }
{
    let size = size as usize;
    if size < bytes.len()
        && bytes.len() - size >= 2
        && bytes[size] == b'\r'
        && bytes[size + 1] == b'\n'
    {
        Some((front(bytes, size), after(bytes, size + 2)))
    } else {
        None
    }
}

fn is_trailer(bytes: &[u8]) -> bool
    ensures { IsTrue result ↔ IsTrailer bytes.now }
{
    let mut headers = [EMPTY_HEADER_SPAN; 100];
    match parse_headers(bytes, &mut headers) {
        Ok(Status::Complete((end, _))) => end == bytes.len(),
        Ok(Status::Partial) => false,
        Err(_) => false,
    }
}
