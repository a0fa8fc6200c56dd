//! Reading a file of cases. `data/README.md` says what its lines are.

use anyhow::{Context, Result, ensure};
use cases::case::{Case, end_line};
use std::alloc::{AllocError, Global};

/// The cases of a file.
pub(crate) fn read(heap: Global, text: &str) -> Result<Vec<Case<'_>>> {
    let mut cases = Vec::new(heap);
    for (number, line) in (1..u64::MAX).zip(text.lines()) {
        read_line(heap, &mut cases, number, line).context(format_args!("line {number}"))?;
    }
    Ok(cases)
}

/// Begins a case, or adds to the last one.
fn read_line<'a>(
    heap: Global,
    cases: &mut Vec<Case<'a>>,
    number: u64,
    line: &'a str,
) -> Result<()> {
    if line.is_empty() || line.starts_with('#') {
        return Ok(());
    }
    if let Some(name) = line.strip_prefix("case ") {
        cases.push(Case::new(heap, name, number))?;
        return Ok(());
    }
    let case = cases
        .last_mut()
        .context("a line in front of the first case")?;
    match line.strip_prefix("> \"") {
        Some(quoted) => add_exact(case, quoted),
        None => add_plain(case, line),
    }
}

/// Adds a line of the job, the reply behind it, or both.
fn add_plain(case: &mut Case<'_>, line: &str) -> Result<()> {
    let (order, reply) = split_reply(line);
    if let Some(order) = order.strip_prefix('>') {
        end_line(&mut case.job, order.trim())?;
    } else if let Some(order) = order.strip_prefix('=') {
        add_with_kind(case, order.trim())?;
    } else {
        ensure!(order.is_empty() && reply.is_some(), "a line with no mark");
    }
    add_reply(case, reply)
}

/// Adds a line of the job that is answered by its kind.
fn add_with_kind(case: &mut Case<'_>, order: &str) -> Result<()> {
    end_line(&mut case.job, order)?;
    let (kind, _) = order.split_at_checked(2).context("no kind behind =")?;
    end_reply(&mut case.replies, kind)?;
    Ok(())
}

/// Adds bytes of the job as they stand in quotes, so many times, and the reply behind them.
fn add_exact(case: &mut Case<'_>, quoted: &str) -> Result<()> {
    let (bytes, rest) = quoted.split_once('"').context("a quote has no end")?;
    let (times, reply) = split_reply(rest);
    for _ in 0..repetitions(times)? {
        unescape(&mut case.job, bytes)?;
    }
    add_reply(case, reply)
}

/// The number behind a quote; once where there is none.
fn repetitions(number: &str) -> Result<u32> {
    if number.is_empty() {
        return Ok(1);
    }
    number.parse().context("no number behind a quote")
}

/// What stands in front of a reply, and the reply, without the comment behind both.
fn split_reply(line: &str) -> (&str, Option<&str>) {
    let line = line.split_once(';').map_or(line, |(front, _)| front);
    match line.split_once('<') {
        Some((front, reply)) => (front.trim(), Some(reply.trim())),
        None => (line.trim(), None),
    }
}

/// Adds the reply, if there is one.
fn add_reply(case: &mut Case<'_>, reply: Option<&str>) -> Result<()> {
    if let Some(reply) = reply {
        end_reply(&mut case.replies, reply)?;
    }
    Ok(())
}

/// Appends a reply and its end.
fn end_reply(replies: &mut String, reply: &str) -> Result<(), AllocError> {
    replies.push_str(reply)?;
    replies.push('\n')
}

/// Appends bytes, where `\` and two digits stand for a byte.
fn unescape(job: &mut Vec<u8>, bytes: &str) -> Result<()> {
    let mut parts = bytes.split('\\');
    if let Some(first) = parts.next() {
        job.extend_from_slice(first.as_bytes())?;
    }
    for part in parts {
        let (byte, rest) = escaped_byte(part).context("no two digits behind \\")?;
        job.push(byte)?;
        job.extend_from_slice(rest.as_bytes())?;
    }
    Ok(())
}

/// The byte that two digits stand for, and what stands behind them.
fn escaped_byte(part: &str) -> Option<(u8, &str)> {
    let (digits, rest) = part.split_at_checked(2)?;
    let byte = u8::from_str_radix(digits, 16).ok()?;
    (!digits.starts_with('+')).then_some((byte, rest))
}
