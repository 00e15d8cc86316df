//! The pairs of forms, and of targets' query parts.
ghost use Rattle.std.specs.Prelude.{codes, ◌≡◌, ◌≢◌, ◌≤◌, length, bytes_eq, IfOk};
ghost use Rattle.std.specs.List.{position_or_len};
ghost use Rattle.fx_http.specs.Answers.{GivesAsked};
ghost use Rattle.fx_http.specs.Forms as forms;
ghost use Rattle.fx_http.specs.Requests as request;

use crate::read_requests::{Asked, RequestError};
use crate::slices::after;
use form_urlencoded::{decode, raw_pairs};
use std::alloc::{AllocError, Global};

// What is behind a target's first `?`, or nothing where it has none.
pub fn query_part(target: &[u8]) -> &[u8]
    ensures { result.now ≡ forms.query_part target.now }
{
    let place = question_mark_place(target);
    after(target, target.len().min(place + 1))
}

// Where the first `?` stands, or the end where none does.
fn question_mark_place(target: &[u8]) -> usize
    ensures place { result ≡ position_or_len forms.is_question_mark target.now }
    ensures within { result ≤ length target.now }
{
    let mut place = 0;
    for b in target {
        if *b == b'?' {
            return place;
        }
        place += 1;
    }
    place
}

// Whether a pair names a graph of the dataset.
pub fn names_dataset(alloc: Global, form: &[u8]) -> Result<bool, AllocError>
    ensures { IfOk result (λ r. r ≡ forms.names_dataset form.now) }
{
    for (name, _) in raw_pairs(form) {
        if is_dataset_name(alloc, name)? {
            return Ok(true);
        }
    }
    Ok(false)
}

fn is_dataset_name(alloc: Global, raw: &[u8]) -> Result<bool, AllocError>
    ensures { IfOk result (λ r. r ≡ forms.is_dataset_name raw.now) }
{
    let name = decode(alloc, raw)?;
    let name = name.as_str();
    Ok(name == "default-graph-uri" || name == "named-graph-uri")
}

fn is_query_name(alloc: Global, raw: &[u8]) -> Result<bool, AllocError>
    ensures { IfOk result (λ r. r ≡ bytes_eq (forms.decoded raw.now) (codes "query")) }
{
    let name = decode(alloc, raw)?;
    Ok(name.as_str() == "query")
}

// The value of the one pair that is named `query`.
pub fn only_query(alloc: Global, form: &[u8]) -> Result<Asked, RequestError>
    ensures value { GivesAsked result (λ answer. request.only_query (forms.form_values (codes "query") form.now) ≡ answer) }
    ensures sound { result ≢ Err RequestError.Fault }
{
    let mut found = None;
    for (name, value) in raw_pairs(form) {
        if is_query_name(alloc, name)? {
            if found.is_some() {
                return Err(RequestError::TwoQueries);
            }
            found = Some(value);
        }
    }
    match found {
        Some(value) => Ok(Asked {
            text: decoded(alloc, value)?,
        }),
        None => Err(RequestError::NoQuery),
    }
}

fn decoded(alloc: Global, raw: &[u8]) -> Result<Vec<u8>, AllocError>
    ensures { IfOk result (λ bytes. bytes.items ≡ forms.decoded raw.now) }
{
    let text = decode(alloc, raw)?;
    Vec::from_slice(alloc, text.as_str().as_bytes())
}
