//! Replies in the order of the jobs.
ghost use Rattle.std.specs.Prelude.{◌≡◌, IfOk, IsPermutation, map};
ghost use Rattle.std.specs.List.Sorted.{IsNonDecreasingBy};
ghost use Rattle.fx_pool.specs.Sharing.{AreInOrder, number_of, reply_of};

use crate::jobs::{Done, JobReply};
use fx_terms::Memory;
use std::alloc::Global;

/// The replies in the order of the numbers of their jobs.
pub(crate) fn in_order(alloc: Global, done: Vec<Done>) -> Result<Vec<JobReply>, Memory>
    ensures { IfOk result (λ replies. AreInOrder done.items replies.items) }
{
    let mut ordered = done;
    order(&mut ordered);
    replies_of(alloc, ordered)
}

fn order(done: &mut Vec<Done>)
    ensures same { IsPermutation done.old.items done.new.items }
    ensures rising { IsNonDecreasingBy number_of done.new.items }
{
    done.sort_unstable_by_key(|done| done.number);
}

fn replies_of(alloc: Global, done: Vec<Done>) -> Result<Vec<JobReply>, Memory>
    ensures { IfOk result (λ replies. replies.items ≡ map reply_of done.items) }
{
    let mut replies = Vec::new(alloc);
    for one in done {
        if replies.reserve(1).is_err() {
            return Err(Memory);
        }
        replies.push_reserved(reply_in(one));
    }
    Ok(replies)
}

fn reply_in(done: Done) -> JobReply
    ensures { result ≡ reply_of done }
{
    let Done { number: _, reply } = done;
    reply
}
