//! Interrupts, and what an entry and a return do to SR and CR.

ghost use Rattle.std.specs.Prelude.{◌≡◌};
ghost use Rattle.machine.specs.Interrupt.{entry_code, cr_code, cr_on_entry, cr_with_lines, is_interrupting};
ghost use Rattle.machine.specs.Interrupt.{is_resetting};
ghost use Rattle.machine.specs.Interrupt.{sr_on_entry, sr_on_return};

use super::bits::{
    CODE_MASK, CODE_SHIFT, CR_ENTRY, CR_LINES, IT_LINES, IT_SHIFT, RST_LINE, SR_INTERRUPTS,
    SR_RETURN, SR_STACK,
};
use super::fault::Fault;

/// SR bit 0 and some SR bit 10 + n are set with line n up.
#[tactic(auto, using(crate::proofs::Masks::lets_in))]
#[inline(always)]
pub fn is_interrupting(sr: u32, lines: u8) -> bool
    ensures { result ≡ is_interrupting sr lines }
{
    sr & SR_INTERRUPTS != 0 && sr >> IT_SHIFT & u32::from(lines & IT_LINES) != 0
}

/// The reset line is bit 6.
#[tactic(auto, using(crate::proofs::Masks::bit_6))]
#[inline(always)]
pub fn is_resetting(lines: u8) -> bool
    ensures { result ≡ is_resetting lines }
{
    lines & RST_LINE != 0
}

/// CR as it is read: bits 15–10 are the lines IT5–IT0 as they stood at the last boundary.
#[tactic(auto, using(crate::proofs::Masks::line_bits))]
#[inline(always)]
pub fn cr_with_lines(lines: u8, cr: u32) -> u32
    ensures { result ≡ cr_with_lines lines cr }
{
    cr & !CR_LINES | u32::from(lines & IT_LINES) << IT_SHIFT
}

/// Entry: SR's low six bits move left by two, zeros entering.
#[tactic(auto, using(crate::proofs::Masks::entry_bits))]
#[inline(always)]
pub fn sr_on_entry(sr: u32) -> u32
    ensures { result ≡ sr_on_entry sr }
{
    sr & !SR_STACK | sr << 2 & SR_STACK
}

/// Entry: the code of the flag that is up goes to CR's low six bits, times 4; an interrupt has code 0.
#[tactic(auto, using(crate::proofs::Masks::code_bits, crate::proofs::Masks::code_few))]
#[inline(always)]
pub fn cr_on_entry(flag: Option<Fault>, cr: u32) -> u32
    ensures { result ≡ cr_on_entry (entry_code flag) cr }
{
    cr & !CR_ENTRY | flag.map_or(0, Fault::code) << CODE_SHIFT
}

/// Return: SR bits 5–2 are copied to bits 3–0.
#[tactic(auto, using(crate::proofs::Masks::return_bits))]
#[inline(always)]
pub fn sr_on_return(sr: u32) -> u32
    ensures { result ≡ sr_on_return sr }
{
    sr & !SR_RETURN | sr >> 2 & SR_RETURN
}

/// The code that is in CR.
#[inline(always)]
pub fn cr_code(cr: u32) -> u32
    ensures { result ≡ cr_code cr }
{
    cr >> CODE_SHIFT & CODE_MASK
}
