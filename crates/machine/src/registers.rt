//! The registers and the flag, as one plain record.

ghost use Rattle.std.specs.Prelude.{◌≡◌, slice_index};

use super::fault::Fault;

/// At every moment register 0 is zero, and at most one of the nine fault flags is up.
#[derive(Clone, Copy)]
pub struct Registers {
    pub general: [u32; 32],
    pub pc: u32,
    pub hi: u32,
    pub lo: u32,
    pub sr: u32,
    pub cr: u32,
    pub epc: u32,
    pub bar: u32,
    pub ad: u32,
    pub ir: u32,
    pub dt: u32,
    pub flag: Option<Fault>,
    ghost zero: { slice_index general 0 ≡ 0 },
}
