//! The core and its calls.

ghost use Rattle.std.specs.Prelude.{◌≡◌, slice_index};
ghost use Rattle.r3000.specs.Calls.{Clocks, Runs, ledger_reply, lines_reply, after_lines, look_reply, register_reply};
ghost use Rattle.r3000.specs.Core.{machine_of, machine_of_parts, registers_in_order, pile_of, core_state};
ghost use Rattle.r3000.specs.Machine.{History, core_at_power_up, no_history};
ghost use Rattle.r3000.specs.Promise.{Happens, IsPromised, Upholds};

use super::denial::Denial;
use super::limits::{MAX_LINES, REGISTERS};
use super::processor::Processor;
use super::promise::promise;
use super::report::{Clocked, Report};
use bus::memory::Bus;
use machine::interrupt::cr_with_lines;
use machine::ledger::Entry;

/// A processor on a pile, which is its own from power-up on.
#[derive(Drop)]
pub struct Core<B> {
    processor: Processor,
    pile: B,
}

impl<B: Bus> Core<B> {
    /// Power-up on a pile: the core can be reached on it, with nothing behind it.
    pub fn new(pile: B) -> Core<B>
        ensures core { machine_of no_history result ≡ core_at_power_up pile }
        ensures promise { IsPromised B.Bus.means B.Bus.steps pile (machine_of no_history result) }
    {
        promise::<B>();
        Core {
            processor: Processor::new(),
            pile,
        }
    }

    /// Takes the core apart: its processor, and its pile.
    pub fn into_parts(self) -> (Processor, B)
        ensures { (h : History) → machine_of_parts h result.0 result.1 ≡ machine_of h self }
    {
        (self.processor, self.pile)
    }

    /// Puts a core together again.
    pub fn from_parts(processor: Processor, pile: B) -> Core<B>
        ensures { (h : History) → machine_of h result ≡ machine_of_parts h processor pile }
    {
        Core { processor, pile }
    }

    /// One cycle, unless the cycles would pass their limit.
    pub fn clock(&mut self) -> Result<Clocked, Denial>
        ensures { Happens B.Bus.means B.Bus.steps (λ c d. Clocks B.Bus.steps c result d) self.old self.new }
    {
        promise::<B>();
        let before = self.processor.counts;
        before.check_cycles(1)?;
        self.processor.cycles(1, &mut self.pile);
        let report = self.processor.counts.report;
        Ok(Clocked {
            frozen: report.frozen > before.report.frozen,
            report,
        })
    }

    /// So many cycles, from 1 to 65,535, or none where their count would pass its limit.
    pub fn run(&mut self, count: u32) -> Result<Report, Denial>
        ensures { Happens B.Bus.means B.Bus.steps
            (λ c d. Runs B.Bus.steps (Upholds B.Bus.means B.Bus.steps c) count c result d) self.old self.new }
    {
        promise::<B>();
        self.processor.counts.check_run(count)?;
        self.processor.cycles(count, &mut self.pile);
        Ok(self.processor.counts.report)
    }

    /// Sets the lines: bits 0–5 are IT0–IT5, bit 6 is RST.
    pub fn lines(&mut self, lines: u8) -> Result<(), Denial>
        ensures reply { result ≡ lines_reply lines }
        ensures core { Happens B.Bus.means B.Bus.steps (λ c d. d ≡ after_lines lines c) self.old self.new }
    {
        promise::<B>();
        if lines > MAX_LINES {
            return Err(Denial::Range);
        }
        self.processor.lines = lines;
        Ok(())
    }

    /// All registers: 0–31, then PC, HI, LO, SR, CR, EPC, BAR, AD, IR and DT. Register 0 is zero.
    pub fn snapshot(&self) -> [u32; REGISTERS]
        ensures reply { result ≡ registers_in_order (core_state self.now) }
        ensures zero { slice_index result 0 ≡ 0 }
        ensures core { Happens B.Bus.means B.Bus.steps (λ c d. d ≡ c) self.now self.now }
    {
        promise::<B>();
        let chip = &self.processor.chip;
        let registers = &chip.registers;
        let mut all = [0; REGISTERS];
        all[32..].copy_from_slice(&[
            registers.pc,
            registers.hi,
            registers.lo,
            registers.sr,
            cr_with_lines(chip.sampled, registers.cr),
            registers.epc,
            registers.bar,
            registers.ad,
            registers.ir,
            registers.dt,
        ]);
        all[..32].copy_from_slice(&registers.general);
        all
    }

    /// One register, by its number in the snapshot.
    pub fn register(&self, number: u8) -> Result<u32, Denial>
        ensures reply { result ≡ register_reply number (core_state self.now) }
        ensures core { Happens B.Bus.means B.Bus.steps (λ c d. d ≡ c) self.now self.now }
    {
        promise::<B>();
        // the snapshot is made only where it is read
        if usize::from(number) >= REGISTERS {
            return Err(Denial::Range);
        }
        Ok(self.snapshot()[usize::from(number)])
    }

    /// The ledger's entry of a code, 0–15.
    pub fn ledger(&self, code: u8) -> Result<Entry, Denial>
        ensures reply { result ≡ ledger_reply code (core_state self.now) }
        ensures core { Happens B.Bus.means B.Bus.steps (λ c d. d ≡ c) self.now self.now }
    {
        promise::<B>();
        let entries = &self.processor.chip.ledger.entries;
        entries.get(usize::from(code)).copied().ok_or(Denial::Range)
    }

    /// The byte at an address, unless its word is refused to reads.
    pub fn look(&self, address: u32) -> Result<u8, Denial>
        ensures reply { result ≡ look_reply (B.Bus.means (pile_of self.now)) address }
        ensures core { Happens B.Bus.means B.Bus.steps (λ c d. d ≡ c) self.now self.now }
    {
        promise::<B>();
        self.pile.look(address).ok_or(Denial::Refused)
    }
}
