//! Runs the firmware of the crate `firmware` on a core while interrupts come in, and prints every call, with what it
//! answered and what it changed.

#![tactic(auto)]

mod script;
mod transcript;

use anyhow::Context;
use bus::memory::Bus;
use bus::request::{Request, Width};
use firmware::{HANDLER, RESET, Section};
use pile::pile::Memories;
use r3000::perform::perform;
use transcript::Load;

/// A word just behind the lower memory, where the pile takes none.
const BEYOND: Section<'static> = Section {
    base: 0x8000_4000,
    words: &[0x0000_0000],
};

/// Writes the words of a section into the pile, waiting out each.
fn load<B: Bus>(rt: &impl Print, pile: &mut B, section: Section<'_>) -> anyhow::Result<()> {
    for (address, word) in (section.base..).step_by(4).zip(section.words) {
        let settled = pile.settle(Request::write(Width::Word, address, *word));
        let line = Load {
            address,
            word: *word,
            settled,
        };
        println!(rt; "{line}")?;
    }
    Ok(())
}

/// Loads the firmware, starts a core on the pile, and performs the script.
fn run(rt: &(impl Print + AllocGlobal)) -> anyhow::Result<()> {
    let mut memories = Memories::zeroed();
    let mut pile = memories.pile();
    load(rt, &mut pile, RESET)?;
    load(rt, &mut pile, HANDLER)?;
    load(rt, &mut pile, BEYOND)?;
    let mut exchanges = script::exchanges(rt.alloc()).context("no room for the calls")?;
    perform(pile, &mut exchanges);
    transcript::print_calls(rt, &exchanges)
}

fn main(rt: HostRuntime) -> anyhow::Result<()> {
    run(&rt)
}
