//! Runs the cases in the files that it is given, and prints how many there are and which differ.

#![tactic(auto)]

ghost use Rattle.std.specs.Prelude.{◌≡◌, ◌<◌, ◌↔◌, IsOk};

mod reading;
mod table;
#[cfg(test)]
mod tests;

use anyhow::{Result, ensure};
use cases::tally::Tally;
use std::env;

/// The end of the program: good where there are cases and none differs.
fn verdict(all: Tally) -> Result<()>
    ensures { IsOk result ↔ ((0 < all.cases) × (all.differ ≡ 0)) }
{
    let Tally { cases, differ } = all;
    ensure!(
        cases > 0,
        "no cases: name files of cases (their form: data/README.md)"
    );
    ensure!(differ == 0, "{differ} of {cases} cases differ");
    Ok(())
}

fn main(rt: HostRuntime) -> Result<()> {
    table::head(&rt)?;
    let mut all = Tally::default();
    for file in env::args(&rt)?.skip(1) {
        all = all.with(table::run(&rt, file.as_str())?);
    }
    table::row(&rt, "all", all)?;
    verdict(all)
}
