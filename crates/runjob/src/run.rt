//! Running a job.

ghost use Rattle.runjob.specs.Run.{RunDoes};

use super::failure::Failure;
use super::input::read_job;
use super::output::write_replies;
use pile::pile::Memories;
use replies::Replies;
use std::alloc::Global;
use std::io::{Read, Write};

/// Reads a job, and writes the replies to it.
pub fn run<R: Read, W: Write>(heap: Global, reader: &mut R, writer: &mut W) -> Result<(), Failure>
    ensures { RunDoes (R.remaining reader.old) (R.remaining reader.new)
        (W.contents writer.old) (W.contents writer.new) result }
{
    let job = read_job(heap, reader)?;
    let mut memories = Memories::zeroed();
    let mut replies = Replies::new(&mut memories, &job);
    write_replies(writer, &mut replies).map_err(Failure::Write)
}
