//! The ledger: for each of 16 codes, how often it was entered and the last EPC.

ghost use Rattle.std.specs.Prelude.{◌≡◌, ◌%◌};
ghost use Rattle.machine.specs.Ledger.{with_entry};

use super::bits::CODE_MASK;

#[derive(Clone, Copy, Default)]
pub struct Entry {
    pub count: u64,
    pub epc: u32,
}

/// How many codes there are.
pub const CODES: usize = 16;

#[derive(Clone, Copy, Default)]
pub struct Ledger {
    pub entries: [Entry; CODES],
}

impl Ledger {
    /// One entry more of a code, whose four low bits count.
    #[inline(always)]
    pub fn note(&mut self, code: u32, epc: u32)
        ensures { self.new.entries ≡ with_entry (code % 16) epc self.old.entries }
    {
        let entry = &mut self.entries[(code & CODE_MASK) as usize];
        entry.count = entry.count.wrapping_add(1);
        entry.epc = epc;
    }
}
