//! The nine faults.

ghost use Rattle.std.specs.Prelude.{◌≡◌};
ghost use Rattle.machine.specs.Fault.{fault_code};

/// Each fault has the code that CR and the ledger know it by; an interrupt has code 0.
#[derive(Clone, Copy)]
pub enum Fault {
    /// A bad address of a load, of a fetch or of a jump.
    Adel = 4,
    /// A bad address of a store.
    Ades = 5,
    /// A bus error of a fetch.
    Ibe = 6,
    /// A bus error of a load or a store.
    Dbe = 7,
    Sys = 8,
    Brk = 9,
    /// An illegal code.
    Ri = 10,
    /// A privileged instruction in user mode.
    Cpu = 11,
    Ovf = 12,
}

impl Fault {
    /// The code of the fault.
    #[inline(always)]
    pub fn code(self) -> u32
        ensures { result ≡ fault_code self }
    {
        self as u32
    }
}
