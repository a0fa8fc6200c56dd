//! A case.

ghost use Rattle.std.specs.Prelude.{◌≡◌, ◌+◌, ◌≤◌, ◌++◌, ◌∷◌, ◌⊎◌, ◌↔◌, [], length, vec_capacity, vec_len};
ghost use Rattle.std.specs.Prelude.{IsTrue, OnErr, OnOk};
ghost use Rattle.replies.specs.Replies.{answer_text};
ghost use Rattle.text.specs.Form.{line_end};

use pile::pile::Memories;
use replies::Replies;
use std::alloc::{AllocError, Global};
use text::form::LINE_END;
use text::writing::reply_text;

/// A job, and its replies as the rules give them.
#[derive(Drop)]
pub struct Case<'a> {
    pub name: &'a str,
    /// The number of the line that begins it in its file.
    pub line: u64,
    pub job: Vec<u8>,
    pub replies: String,
}

impl<'a> Case<'a> {
    /// A job of no bytes.
    pub fn new(heap: Global, name: &'a str, line: u64) -> Case<'a>
        ensures name { result.name.now ≡ name.now }
        ensures line { result.line ≡ line }
        ensures job { result.job.items ≡ [] }
        ensures replies { result.replies.bytes.items ≡ [] }
    {
        Case {
            name,
            line,
            job: Vec::new(heap),
            replies: String::new(heap),
        }
    }
}

/// Appends a line and its end to a job. It fails only where the job has too little room and gets no more; then nothing
/// was appended, or the line without its end.
pub fn end_line(job: &mut Vec<u8>, line: &str) -> Result<(), AllocError>
    ensures ok { OnOk result (job.new.items ≡ job.old.items ++ line.now ++ line_end ∷ []) }
    ensures room { OnErr result (vec_capacity job.old ≤ vec_len job.old + length line.now) }
    ensures err { OnErr result
        ((job.new.items ≡ job.old.items) ⊎ (job.new.items ≡ job.old.items ++ line.now)) }
{
    job.extend_from_slice(line.as_bytes())?;
    job.push(LINE_END)?;
    Ok(())
}

/// Whether a job is answered by these replies.
pub fn holds(job: &[u8], replies: &[u8]) -> bool
    ensures { IsTrue result ↔ (answer_text job.now ≡ replies.now) }
{
    let mut memories = Memories::zeroed();
    let mut rest = replies;
    for reply in Replies::new(&mut memories, job) {
        match rest.strip_prefix(reply_text(reply).as_slice()) {
            Some(after) => rest = after,
            None => return false,
        }
    }
    rest.is_empty()
}
