//! Runs the job on standard input, and writes its replies to standard output.

#![tactic(auto)]

mod failure;
mod input;
mod output;
mod run;
#[cfg(test)]
mod tests;

use failure::Failure;
use std::io;

/// How often a read or a write that was interrupted is tried again.
const RETRIES: u32 = 1_000;

fn main(rt: HostRuntime) -> anyhow::Result<()> {
    let (mut reader, mut writer) = (rt.reader(), io::writer(&rt));
    run::run(rt.alloc(), &mut reader, &mut writer).map_err(Failure::into_error)
}
