//! The operands of the operation box.

ghost use Rattle.std.specs.Prelude.{◌≡◌};
ghost use Rattle.machine.specs.Registers.{regs_of};
ghost use Rattle.microprogram.specs.Cycle.{operand_x, operand_y};

use super::chip::Chip;
use machine::interrupt::cr_with_lines;
use machine::word::{Field, branch_offset, jump_index, shift_amount, signed_immediate};
use rows::row::{OperandX, OperandY};

impl Chip {
    /// Operand X; CR has the lines as they stood at the last boundary.
    #[inline(always)]
    pub(crate) fn operand_x(&self, x: OperandX) -> u32
        ensures { result ≡ operand_x self.now.sampled self.now.registers.dt (regs_of self.now.registers) x }
    {
        let registers = &self.registers;
        match x {
            OperandX::Rs => registers.general[Field::Rs.register(registers.ir)],
            OperandX::Rt => registers.general[Field::Rt.register(registers.ir)],
            OperandX::Pc => registers.pc,
            OperandX::Ad => registers.ad,
            OperandX::Hi => registers.hi,
            OperandX::Lo => registers.lo,
            OperandX::Epc => registers.epc,
            OperandX::Bar => registers.bar,
            OperandX::Sr => registers.sr,
            OperandX::Cr => cr_with_lines(self.sampled, registers.cr),
            OperandX::Dt => registers.dt,
            OperandX::Pc4 => registers.pc & 0xF000_0000,
            OperandX::C0 => 0,
            OperandX::Cz => 0xBFC0_0000,
            OperandX::Ch => 0xFFFF,
        }
    }

    /// Operand Y.
    #[inline(always)]
    pub(crate) fn operand_y(&self, y: OperandY) -> u32
        ensures { result ≡ operand_y self.now.registers.dt (regs_of self.now.registers) y }
    {
        let registers = &self.registers;
        match y {
            OperandY::I16 => signed_immediate(registers.ir),
            OperandY::I18 => branch_offset(registers.ir),
            OperandY::Iu28 => jump_index(registers.ir),
            OperandY::Ish => shift_amount(registers.ir),
            OperandY::Dt => registers.dt,
            OperandY::Ad => registers.ad,
            OperandY::C0 => 0,
            OperandY::C4 => 4,
            OperandY::C8 => 8,
            OperandY::C16 => 16,
            OperandY::C24 => 24,
            OperandY::Cx => 0x8000_0080,
        }
    }
}
