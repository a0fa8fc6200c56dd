//! The numbers of the form that lines and replies have.

/// The code with which a denial begins.
pub(crate) const DENIAL_CODE: u64 = 0xFF;

/// How many digits a code has.
pub(crate) const CODE_WIDTH: usize = 2;

/// How many digits an address has, and a word, and the number of a line.
pub(crate) const WORD_WIDTH: usize = 8;

/// How many digits the lines have, the number of a register and that of a denial.
pub(crate) const BYTE_WIDTH: usize = 2;

/// How many digits the cycles that a run asks for have.
pub(crate) const RUN_WIDTH: usize = 4;

/// How many digits a count of a run's reply has.
pub(crate) const COUNT_WIDTH: usize = 16;

/// Single spaces separate the fields.
pub(crate) const SPACE: u8 = b' ';

/// The byte that ends a line, and a reply.
pub const LINE_END: u8 = b'\n';
