//! The table of results: a row for each file, and in front of it the cases that differ.

use super::reading::read;
use anyhow::{Context, Result};
use cases::case::{Case, holds};
use cases::tally::{Tally, tally_of};
use pile::pile::Memories;
use replies::Replies;
use std::rt::Files;
use std::{fs, io, str};
use text::writing::reply_text;

/// The head of the table; its columns are as wide as those of a row.
pub(crate) fn head(rt: &impl Print) -> io::Result<()> {
    println!(rt; "file                       cases differ")
}

/// A row of the table.
pub(crate) fn row(rt: &impl Print, file: &str, tally: Tally) -> io::Result<()> {
    let Tally { cases, differ } = tally;
    println!(rt; "{file:<26} {cases:>5} {differ:>6}")
}

/// Runs the cases of a file. Those that differ are told, and then the file's row.
pub(crate) fn run<R: Files + Print + AllocGlobal>(rt: &R, file: &str) -> Result<Tally> {
    let content = fs::read_to_string(rt, file).context(format_args!("{file} cannot be read"))?;
    let cases = read(rt.alloc(), content.as_str()).context(format_args!("{file} is malformed"))?;
    let tally = tally_of(&cases);
    if tally.differ > 0 {
        tell_all(rt, file, &cases)?;
    }
    row(rt, file, tally)?;
    Ok(tally)
}

/// Tells the cases that differ.
fn tell_all(rt: &impl Print, file: &str, cases: &[Case<'_>]) -> io::Result<()> {
    for case in cases {
        if !holds(case.job.as_slice(), case.replies.as_bytes()) {
            println!(rt; "{file}, line {}: case {} differs", case.line, case.name)?;
            tell(rt, case)?;
        }
    }
    Ok(())
}

/// Tells the first reply that differs.
fn tell(rt: &impl Print, case: &Case<'_>) -> io::Result<()> {
    let mut memories = Memories::zeroed();
    let mut expected = case.replies.as_str().lines();
    let mut number = 0u64;
    for reply in Replies::new(&mut memories, case.job.as_slice()) {
        let bytes = reply_text(reply);
        let came = str::from_utf8(bytes.as_slice()).unwrap_or("").trim_end();
        let expected = expected.next().unwrap_or("none");
        number = number.saturating_add(1);
        if expected != came {
            return println!(rt; "  reply {number}: expected {expected}, came {came}");
        }
    }
    println!(rt;
        "  expected {}, and no more came",
        expected.next().unwrap_or("none")
    )
}
