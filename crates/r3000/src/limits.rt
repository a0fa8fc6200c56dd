//! The limits of the calls.

/// The most cycles that a core makes.
pub const MAX_CYCLES: u64 = 1 << 62;

/// The longest run, in cycles.
pub const MAX_RUN: u32 = 65_535;

/// All seven lines up.
pub const MAX_LINES: u8 = 127;

/// How many registers a core shows; the last, DT, has the number 41.
pub const REGISTERS: usize = 42;
