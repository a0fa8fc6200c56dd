//! Writing replies.

ghost use Rattle.std.specs.Io.{WritesAtMost};
ghost use Rattle.std.specs.Io.KnownBytes.{WriteAppends};
ghost use Rattle.replies.specs.Replies.{text_of_replies, replies_to_come};
ghost use Rattle.runjob.specs.Run.{WritesBytes};

use super::RETRIES;
use replies::Replies;
use std::io;
use std::io::{ErrorKind, Write};
use text::writing::reply_text;

/// One write, tried again where it was interrupted.
fn write_some<W: Write>(writer: &mut W, bytes: &[u8]) -> io::Result<usize>
    ensures bound { WritesAtMost result bytes.now }
    ensures bytes { WriteAppends (W.contents writer.old) (W.contents writer.new) result bytes.now }
{
    for _ in 0..RETRIES {
        match writer.write(bytes) {
            Err(error) if error.kind() == ErrorKind::Interrupted => {}
            result => return result,
        }
    }
    writer.write(bytes)
}

/// Writes all bytes; where that fails, the first of them may have been written.
fn write_whole<W: Write>(writer: &mut W, bytes: &[u8]) -> io::Result<()>
    ensures { WritesBytes (W.contents writer.old) (W.contents writer.new) bytes.now result }
{
    let mut rest = bytes;
    while !rest.is_empty() {
        let count = write_some(writer, rest)?;
        if count == 0 {
            return Err(io::Error::new(ErrorKind::WriteZero, "the writer takes no bytes"));
        }
        rest = &rest[count..];
    }
    Ok(())
}

/// Writes each reply as it comes.
pub fn write_replies<W: Write>(writer: &mut W, replies: &mut Replies<'_>) -> io::Result<()>
    ensures { WritesBytes (W.contents writer.old) (W.contents writer.new)
        (text_of_replies (replies_to_come replies.old)) result }
{
    while let Some(reply) = replies.next() {
        write_whole(writer, reply_text(reply).as_slice())?;
    }
    writer.flush()
}
