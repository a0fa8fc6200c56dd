//! Jobs on the pile that jobs run on, with each reply said exactly.

#![tactic(auto)]

ghost use Rattle.std.specs.Prelude.{◌≡◌, ℕ, List, take};
ghost use Rattle.std.specs.Iterator.{YieldsFirst, item_count};
ghost use Rattle.replies.specs.Replies.{enough_bytes, replies_to, replies_to_come};

pub mod example;
#[cfg(test)]
mod tests;

use jobs::job::Job;
use jobs::limits::MAX_JOB;
use pile::pile::{Memories, Pile, pile_is_decided};
use text::reply::Reply;

/// A job at work on the pile of jobs: an iterator over the replies that are still to come. Nothing is allocated.
#[derive(Drop)]
pub struct Replies<'a>(Job<'a, Pile<'a>>);

impl<'a> Replies<'a> {
    /// The replies to a job. The memories are zeroed, and its pile borrows them.
    pub fn new(memories: &'a mut Memories, job: &'a [u8]) -> Replies<'a>
        ensures { replies_to_come result ≡ replies_to job.now }
    {
        *memories = Memories::zeroed();
        Replies(Job::new(memories.pile(), job))
    }
}

impl<'a> Iterator for Replies<'a> {
    type Item = Reply;

    ghost next_gives = { YieldsFirst replies_to_come };

    ghost remaining = { item_count replies_to_come };

    fn next(&mut self) -> Option<Reply> {
        pile_is_decided();
        self.0.next()
    }
}

/// How many bytes of a job tell its replies: one more than a job may have tells that it is too long.
pub fn enough_bytes() -> u64
    ensures value { result ≡ enough_bytes }
    ensures tells { (job : List ℕ) → replies_to (take result job) ≡ replies_to job }
{
    MAX_JOB as u64 + 1
}
