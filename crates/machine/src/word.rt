//! The fields of an instruction.

ghost use Rattle.std.specs.Prelude.{◌≡◌, ◌<◌};
ghost use Rattle.machine.specs.Word.{branch_offset, function, jump_index, opcode, register_field, shift_amount};
ghost use Rattle.machine.specs.Word.{signed_immediate, system_number};

/// The fields that name general registers, each by the lowest of its five bits.
#[derive(Clone, Copy)]
pub enum Field {
    Rs = 21,
    Rt = 16,
    Rd = 11,
}

impl Field {
    /// The number of the register that the field names.
    #[inline(always)]
    pub fn register(self, ir: u32) -> usize
        ensures is { result ≡ register_field self ir }
        ensures below { result < 32 }
    {
        (ir >> self as u32 & 0x1F) as usize
    }
}

/// Bits 31–26.
#[inline(always)]
pub fn opcode(ir: u32) -> u16
    ensures { result ≡ opcode ir }
{
    (ir >> 26) as u16
}

/// Bits 5–0.
#[inline(always)]
pub fn function(ir: u32) -> u16
    ensures { result ≡ function ir }
{
    (ir & 0x3F) as u16
}

/// Bits 14–11: the number of a system register.
#[inline(always)]
pub fn system_number(ir: u32) -> u16
    ensures { result ≡ system_number ir }
{
    (ir >> 11 & 0xF) as u16
}

/// Bits 10–6.
#[inline(always)]
pub fn shift_amount(ir: u32) -> u32
    ensures { result ≡ shift_amount ir }
{
    ir >> 6 & 0x1F
}

/// Bits 15–0, their sign extended.
#[inline(always)]
pub fn signed_immediate(ir: u32) -> u32
    ensures { result ≡ signed_immediate ir }
{
    let immediate = (ir & 0xFFFF) as u16;
    i32::from(immediate.cast_signed()).cast_unsigned()
}

/// Four times the signed immediate, as a branch counts words.
#[inline(always)]
pub fn branch_offset(ir: u32) -> u32
    ensures { result ≡ branch_offset ir }
{
    signed_immediate(ir) << 2
}

/// Four times bits 25–0.
#[inline(always)]
pub fn jump_index(ir: u32) -> u32
    ensures { result ≡ jump_index ir }
{
    (ir & 0x3FF_FFFF) << 2
}
