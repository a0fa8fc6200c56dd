//! The firmware's results are right at whatever cycle an interrupt or a reset comes in.

use super::{HANDLER, RESET, Section};
use bus::memory::Bus;
use bus::request::{Request, Width};
use pile::pile::Memories;
use r3000::cpu::Core;
use r3000::denial::Denial;
use std::process::Abort;

/// More cycles than the firmware takes where nothing interrupts it.
const ALONE: u32 = 1_250;

/// More cycles than two runs of the handler take.
const SERVED: u32 = 160;

/// The eight bytes in order, and (1 × 01 + 2 × 07 + 3 × 13 + … + 8 × FE) modulo 251.
const RESULTS: [u8; 9] = [0x01, 0x07, 0x13, 0x2A, 0x3B, 0x5C, 0x88, 0xFE, 0x37];

/// Writes the words of a section into the pile.
pub(super) fn put<B: Bus>(pile: &mut B, section: Section<'_>) {
    for (address, word) in (section.base..).step_by(4).zip(section.words) {
        let _ = pile.settle(Request::write(Width::Word, address, *word));
    }
}

/// Whether the table and the check number are right, and as many interrupts were counted, modulo 256.
fn is_right<B: Bus>(core: &Core<B>, interrupts: u64) -> bool {
    (0x8000_0100..)
        .zip(RESULTS)
        .all(|(address, byte)| core.look(address) == Ok(byte))
        && core.look(0x8000_0110).map(u64::from) == Ok(interrupts % 256)
}

/// Runs the firmware, with lines for so many cycles each, and tells whether it ended right and missed no interrupt.
fn runs_right<B: Bus + Drop>(mut pile: B, spans: &[(u8, u32)]) -> Result<bool, Denial> {
    put(&mut pile, RESET);
    put(&mut pile, HANDLER);
    let mut core = Core::new(pile);
    for (lines, cycles) in spans {
        core.lines(*lines)?;
        core.run(*cycles)?;
    }
    let entered = core.ledger(0)?.count;
    Ok(is_right(&core, entered))
}

/// The same on a pile of its own.
fn ends_right(spans: &[(u8, u32)]) -> bool {
    let mut memories = Memories::zeroed();
    runs_right(memories.pile(), spans) == Ok(true)
}

#[test]
fn undisturbed(rt: HostRuntime) {
    assert!(rt; ends_right(&[(0, ALONE)]));
}

/// An interrupt that lasts for so many cycles, from each cycle on.
fn sweep(rt: &impl Abort, length: u32) {
    for cycle in 1..ALONE {
        let spans = [(0, cycle), (1, length), (0, ALONE - cycle + SERVED)];
        assert!(rt; ends_right(&spans), "from cycle {cycle} on, for {length}");
    }
}

#[test]
fn an_interrupt_that_one_boundary_at_most_sees(rt: HostRuntime) {
    sweep(&rt, 1);
}

#[test]
fn an_interrupt_up_to_the_way_back(rt: HostRuntime) {
    sweep(&rt, 60);
}

#[test]
fn an_interrupt_that_comes_twice(rt: HostRuntime) {
    sweep(&rt, 80);
}

#[test]
fn an_interrupt_that_is_held(rt: HostRuntime) {
    sweep(&rt, 300);
}

#[test]
fn a_second_interrupt_at_every_cycle_of_the_handler(rt: HostRuntime) {
    for cycle in [60, 61, 62, 63, 64, 700] {
        for pause in 1..100 {
            let spans = [
                (0, cycle),
                (1, 9),
                (0, pause),
                (1, 1),
                (0, ALONE - cycle + SERVED),
            ];
            assert!(rt;
                ends_right(&spans),
                "from cycle {cycle} on, and {pause} after it"
            );
        }
    }
}

#[test]
fn a_reset_at_every_cycle(rt: HostRuntime) {
    for cycle in 1..ALONE {
        let spans = [(0, cycle), (0x40, 9), (0, ALONE)];
        assert!(rt; ends_right(&spans), "at cycle {cycle}");
    }
}
