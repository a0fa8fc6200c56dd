//! Reading a job.

ghost use Rattle.std.specs.Prelude.{MatchResult};
ghost use Rattle.std.specs.Io.{ReadsAtMost};
ghost use Rattle.std.specs.Io.KnownBytes.{ReadConsumes};
ghost use Rattle.runjob.specs.Run.{StopsReading, TakesJob};

use super::RETRIES;
use super::failure::Failure;
use replies::enough_bytes;
use std::alloc::Global;
use std::io;
use std::io::{ErrorKind, Read};

/// How many bytes are read at once.
const CHUNK: usize = 4_096;

/// One read, tried again where it was interrupted.
fn read_some<R: Read>(reader: &mut R, chunk: &mut [u8]) -> io::Result<usize>
    ensures bound { ReadsAtMost result chunk.new }
    ensures bytes { ReadConsumes (R.remaining reader.old) (R.remaining reader.new) result chunk.new }
{
    for _ in 0..RETRIES {
        match reader.read(chunk) {
            Err(error) if error.kind() == ErrorKind::Interrupted => {}
            result => return result,
        }
    }
    reader.read(chunk)
}

/// The bytes that a reader gives, or as many of them as tell their replies; no more are read.
pub fn read_job<R: Read>(heap: Global, reader: &mut R) -> Result<Vec<u8>, Failure>
    ensures { MatchResult result
        (λ job. TakesJob (R.remaining reader.old) (R.remaining reader.new) job.items)
        (StopsReading (R.remaining reader.old) (R.remaining reader.new)) }
{
    let mut job = Vec::new(heap);
    let mut chunk = [0u8; CHUNK];
    let most = enough_bytes() as usize;
    while job.len() < most {
        let room = CHUNK.min(most - job.len());
        match read_some(reader, &mut chunk[..room]) {
            Ok(0) => return Ok(job),
            Ok(count) => job.extend_from_slice(&chunk[..count])?,
            Err(error) => return Err(Failure::Read(error)),
        }
    }
    Ok(job)
}
