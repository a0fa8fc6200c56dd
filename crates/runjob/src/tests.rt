//! Runs over readers and writers that are interrupted, stop short or fail.

use super::failure::Failure;
use super::run::run;
use replies::example::worked_example;
use std::alloc::Global;
use std::io;
use std::io::{ErrorKind, Read, Write};
use std::test::Fail;

/// Is interrupted so often, and then gives its bytes in pieces of 3.
#[derive(Drop)]
struct Pieces<'a> {
    interrupts: u32,
    rest: &'a [u8],
}

impl Read for Pieces<'_> {
    fn read(&mut self, buf: &mut [u8]) -> io::Result<usize> {
        if self.interrupts > 0 {
            self.interrupts -= 1;
            return Err(ErrorKind::Interrupted.into());
        }
        let count = self.rest.len().min(buf.len()).min(3);
        let (piece, rest) = self.rest.split_at(count);
        buf[..count].copy_from_slice(piece);
        self.rest = rest;
        Ok(count)
    }
}

/// Gives what another reader gives, and fails where that ends.
#[derive(Drop)]
struct Broken<'a>(Pieces<'a>);

impl Read for Broken<'_> {
    fn read(&mut self, buf: &mut [u8]) -> io::Result<usize> {
        match self.0.read(buf) {
            Ok(0) => Err(ErrorKind::TimedOut.into()),
            given => given,
        }
    }
}

/// Takes one byte at a time, and fails where it has no more room.
#[derive(Drop)]
struct Narrow {
    room: usize,
    held: Vec<u8>,
}

impl Narrow {
    fn new(heap: Global, room: usize) -> Narrow {
        Narrow {
            room,
            held: Vec::new(heap),
        }
    }
}

impl Write for Narrow {
    fn write(&mut self, buf: &[u8]) -> io::Result<usize> {
        if self.held.len() >= self.room {
            return Err(ErrorKind::BrokenPipe.into());
        }
        let count = buf.len().min(1);
        self.held.extend_from_slice(&buf[..count])?;
        Ok(count)
    }

    fn flush(&mut self) -> io::Result<()> {
        Ok(())
    }
}

/// Takes nothing.
#[derive(Drop)]
struct Full;

impl Write for Full {
    fn write(&mut self, _: &[u8]) -> io::Result<usize> {
        Ok(0)
    }

    fn flush(&mut self) -> io::Result<()> {
        Ok(())
    }
}

/// Takes all, and cannot pass it on.
#[derive(Drop)]
struct Stuck;

impl Write for Stuck {
    fn write(&mut self, buf: &[u8]) -> io::Result<usize> {
        Ok(buf.len())
    }

    fn flush(&mut self) -> io::Result<()> {
        Err(ErrorKind::BrokenPipe.into())
    }
}

/// The example's job.
fn example(interrupts: u32) -> Pieces<'static> {
    Pieces {
        interrupts,
        rest: worked_example().job,
    }
}

#[test]
fn an_interrupted_reader_and_a_narrow_writer(rt: HostRuntime) {
    let mut writer = Narrow::new(rt.alloc(), 1_000);
    assert!(rt; run(rt.alloc(), &mut example(2), &mut writer).is_ok());
    assert!(rt; writer.held.as_slice() == worked_example().replies);
}

#[test]
fn no_job(rt: HostRuntime) {
    let mut reader = Pieces {
        interrupts: 0,
        rest: b"",
    };
    let mut writer = Narrow::new(rt.alloc(), 1_000);
    assert!(rt; run(rt.alloc(), &mut reader, &mut writer).is_ok());
    assert!(rt; writer.held.is_empty());
}

#[test]
fn a_reader_that_fails(rt: HostRuntime) {
    let mut writer = Narrow::new(rt.alloc(), 1_000);
    let ran = run(rt.alloc(), &mut Broken(example(0)), &mut writer);
    assert!(rt; matches!(ran, Err(Failure::Read(_))));
    assert!(rt; writer.held.is_empty());
}

#[test]
fn writers_that_fail(rt: HostRuntime) {
    let mut writer = Narrow::new(rt.alloc(), 10);
    let ran = run(rt.alloc(), &mut example(0), &mut writer);
    assert!(rt; matches!(ran, Err(Failure::Write(_))));
    assert!(rt; writer.held.as_slice() == b"10\n20\n40 0".as_slice());
    let ran = run(rt.alloc(), &mut example(0), &mut Full);
    assert!(rt; matches!(ran, Err(Failure::Write(_))));
    let ran = run(rt.alloc(), &mut example(0), &mut Stuck);
    assert!(rt; matches!(ran, Err(Failure::Write(_))));
}

#[test]
fn failures_as_errors(rt: HostRuntime) -> Result<(), Fail> {
    let heap = rt.alloc();
    let error = Failure::Memory.into_error();
    assert_eq!(rt; format!(in heap; "{error}")?.as_str(), "out of memory");
    let error = Failure::Read(ErrorKind::TimedOut.into()).into_error();
    assert_eq!(rt;
        format!(in heap; "{error}")?.as_str(),
        "cannot read the job"
    );
    assert_eq!(rt;
        format!(in heap; "{error:#}")?.as_str(),
        "cannot read the job: timed out"
    );
    let error = Failure::Write(ErrorKind::BrokenPipe.into()).into_error();
    assert_eq!(rt;
        format!(in heap; "{error}")?.as_str(),
        "cannot write the replies"
    );
    assert_eq!(rt;
        format!(in heap; "{error:#}")?.as_str(),
        "cannot write the replies: broken pipe"
    );
    Ok(())
}
