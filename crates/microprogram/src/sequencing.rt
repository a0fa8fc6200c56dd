//! Which row follows.

ghost use Rattle.std.specs.Prelude.{◌≡◌, ◌+◌, ◌*◌, ◌%◌};
ghost use Rattle.machine.specs.Interrupt.{is_interrupting, is_resetting};
ghost use Rattle.machine.specs.Operation.{one_if};
ghost use Rattle.machine.specs.Registers.{regs_of};
ghost use Rattle.machine.specs.Word.{bit};
ghost use Rattle.microprogram.specs.Cycle.{ends_path, next_row};

use super::chip::Chip;
use machine::interrupt::{is_interrupting, is_resetting};
use machine::word::{function, opcode, system_number};
use rows::row::{Row, Sequencing};

/// A bit of a word, as 1 or 0.
#[inline(always)]
fn bit(n: u32, word: u32) -> u16
    ensures { result ≡ one_if (bit (n % 32) word) }
{
    (word.wrapping_shr(n) & 1) as u16
}

/// Whether a path ends with a row of this sequencing.
#[inline(always)]
pub(crate) fn ends_path(sequencing: Sequencing) -> bool
    ensures { result ≡ ends_path sequencing }
{
    matches!(sequencing, Sequencing::Rie)
}

/// What a boundary adds to AMIC: reset, interrupt, flag.
#[inline(always)]
fn boundary_choice(sr: u32, lines: u8, flag: bool) -> u16
    ensures { result ≡ one_if (is_resetting lines) * 4 + one_if (is_interrupting sr lines) * 2 + one_if flag }
{
    u16::from(is_resetting(lines)) * 4 + u16::from(is_interrupting(sr, lines)) * 2 + u16::from(flag)
}

impl Chip {
    /// The address of the row that follows.
    #[inline(always)]
    pub(crate) fn next_row(&self, row: &Row, res: u32, zero: bool, lines: u8, flag: bool) -> u16
        ensures { result ≡ next_row row.now.sequencing row.now.amic (regs_of self.now.registers) res zero lines flag }
    {
        let (ir, ad, amic) = (self.registers.ir, self.registers.ad, row.amic);
        match row.sequencing {
            Sequencing::Next => amic,
            Sequencing::Decod => 256 + opcode(ir) * 4,
            Sequencing::Spec => 512 + function(ir) * 4,
            Sequencing::Movc0 => (amic & !0xF) + system_number(ir),
            Sequencing::Rie => (amic & !7) + boundary_choice(self.registers.sr, lines, flag),
            Sequencing::Copro => (amic & !3) + bit(25, ir) * 2 + bit(23, ir),
            Sequencing::Bcond => (amic & !3) + bit(20, ir) * 2 + bit(16, ir),
            Sequencing::Ad10 => (amic & !3) + (ad & 3) as u16,
            Sequencing::Ad1 => (amic & !1) + bit(1, ad),
            Sequencing::Unsi => (amic & !1) + bit(28, ir),
            Sequencing::Nul => (amic & !1) + u16::from(zero),
            Sequencing::Sinul => (amic & !3) + bit(31, res) * 2 + u16::from(zero),
        }
    }
}
