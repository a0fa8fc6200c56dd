//! The processor without its memory.

use machine::ledger::Ledger;
use machine::registers::Registers;

#[derive(Clone, Copy)]
pub struct Chip {
    pub registers: Registers,
    /// The address of the row at hand.
    pub row: u16,
    /// The lines as they stood at the last boundary.
    pub sampled: u8,
    pub ledger: Ledger,
}
