//! The bits of SR and CR, of the lines, and of addresses.

/// SR bit 0: interrupts are let in.
pub const SR_INTERRUPTS: u32 = 1;

/// SR bit 1: user mode.
pub const SR_USER: u32 = 1 << 1;

/// SR bits 5–0: the two bits above three times: as they are, as they were before the last entry, and as they were
/// before the entry before that.
pub const SR_STACK: u32 = 0x3F;

/// SR bits 3–0, which a return writes.
pub const SR_RETURN: u32 = 0xF;

/// SR bit 10 + n lets line n in, and CR bit 10 + n is line n as it was sampled.
pub const IT_SHIFT: u32 = 10;

/// The lines IT5–IT0.
pub const IT_LINES: u8 = 0x3F;

/// The reset line RST.
pub const RST_LINE: u8 = 1 << 6;

/// CR bits 15–10.
pub const CR_LINES: u32 = 0x3F << 10;

/// CR has its code from bit 2 up.
pub const CODE_SHIFT: u32 = 2;

/// A code has four bits.
pub const CODE_MASK: u32 = 0xF;

/// CR bits 5–0, which an entry writes.
pub const CR_ENTRY: u32 = 0x3F;

/// The bit of an address that user mode may not use.
pub const SYSTEM_ADDRESS: u32 = 1 << 31;
