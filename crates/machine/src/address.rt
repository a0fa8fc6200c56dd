//! Which addresses may be used.

ghost use Rattle.std.specs.Prelude.{◌≡◌};
ghost use Rattle.machine.specs.Address.{is_barred, is_misplaced, is_user_mode};

use super::bits::{SR_USER, SYSTEM_ADDRESS};

/// SR bit 1.
#[tactic(auto, using(crate::proofs::Masks::bit_1))]
#[inline(always)]
pub fn is_user_mode(sr: u32) -> bool
    ensures { result ≡ is_user_mode sr }
{
    sr & SR_USER != 0
}

/// User mode may not use an address with bit 31.
#[inline(always)]
pub fn is_barred(sr: u32, address: u32) -> bool
    ensures { result ≡ is_barred sr address }
{
    is_user_mode(sr) && address & SYSTEM_ADDRESS != 0
}

/// An address that is no multiple of the size, or that is barred.
#[inline(always)]
pub fn is_misplaced(size: u32, sr: u32, address: u32) -> bool
    ensures { result ≡ is_misplaced size sr address }
{
    !address.is_multiple_of(size) || is_barred(sr, address)
}
