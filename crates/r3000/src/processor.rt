//! A processor and its cycle.

ghost use Rattle.std.specs.Prelude.{◌≡◌, ◌<◌, ◌≤◌, ◌+◌, Bool};
ghost use Rattle.microprogram.specs.Cycle.{chip_state, state_at_power_up};
ghost use Rattle.r3000.specs.Core.{machine_of_parts};
ghost use Rattle.r3000.specs.Counts.{zero_counts};
ghost use Rattle.r3000.specs.Cycle.{Cycle, Cycles};
ghost use Rattle.r3000.specs.Limits.{max_cycles};
ghost use Rattle.r3000.specs.Machine.{History};

use super::counts::Counts;
use bus::memory::Bus;
use dispatch::by_row::cycle_by_row;
use microprogram::chip::Chip;
use microprogram::chip_cycle::CycleEnd;

/// A core without its pile.
#[derive(Clone, Copy)]
pub struct Processor {
    pub(crate) chip: Chip,
    /// The lines as they stand now.
    pub(crate) lines: u8,
    pub(crate) counts: Counts,
}

impl Processor {
    /// Power-up: registers, lines, ledger and counts zero, no flag, row 0.
    pub(crate) fn new() -> Processor
        ensures state { chip_state result.chip ≡ state_at_power_up }
        ensures lines { result.lines ≡ 0 }
        ensures report { result.counts.report ≡ zero_counts }
    {
        Processor {
            chip: Chip::new(),
            lines: 0,
            counts: Counts::new(),
        }
    }

    /// So many cycles on a pile. All cycles are made here: so the code of the rows has one caller, and is taken in.
    pub(crate) fn cycles<B: Bus>(&mut self, count: u32, pile: &mut B)
        requires { self.old.counts.report.cycles + count ≤ max_cycles }
        ensures { (h : History)
            → (k : History)
            × Cycles B.Bus.steps (λ c. Unit {0}) count (machine_of_parts h self.old pile.old)
            (machine_of_parts k self.new pile.new) }
    {
        let Processor {
            mut chip,
            lines,
            mut counts,
        } = *self;
        for _ in 0..count {
            cycle(&mut chip, lines, &mut counts, pile);
        }
        *self = Processor {
            chip,
            lines,
            counts,
        };
    }
}

/// One cycle of a processor, given in its parts, on a pile. In parts, the counts are apart from the chip, whose arrays
/// have to lie in memory: so the compiler can keep the counts in registers.
#[inline(always)]
fn cycle<B: Bus>(chip: &mut Chip, lines: u8, counts: &mut Counts, pile: &mut B)
    requires { counts.old.report.cycles < max_cycles }
    ensures { (h : History)
        → (k : History)
        × (frozen : Bool)
        × Cycle B.Bus.steps
        (machine_of_parts h (record { chip = chip.old; lines = lines; counts = counts.old }) pile.old)
        frozen
        (machine_of_parts k (record { chip = chip.new; lines = lines; counts = counts.new }) pile.new) }
{
    let end = cycle_by_row(chip, lines, pile);
    counts.count(
        matches!(end, CycleEnd::Frozen),
        matches!(end, CycleEnd::Boundary),
    );
}
