//! Why a call is denied.

ghost use Rattle.std.specs.Prelude.{◌≡◌};
ghost use Rattle.r3000.specs.Denial.{denial_number};

/// A denied call alters nothing.
#[derive(Clone, Copy, PartialEq, Eq)]
pub enum Denial {
    /// Lines, a count of cycles, a register or a ledger entry out of range.
    Range = 8,
    /// The cycles would pass 2^62.
    Cycles = 9,
    /// The byte's word is refused to reads.
    Refused = 10,
}

impl Denial {
    /// The number by which the denial is known.
    pub fn number(self) -> u8
        ensures { result ≡ denial_number self }
    {
        self as u8
    }
}
