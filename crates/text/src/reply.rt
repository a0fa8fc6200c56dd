//! What a line is answered.

/// The counts that a run reports.
#[derive(Clone, Copy)]
pub struct Counts {
    pub cycles: u64,
    pub frozen: u64,
    pub boundaries: u64,
}

/// A denial: its number, the line from 1, and the address of a refused load.
#[derive(Clone, Copy)]
pub struct Denied {
    /// The number by which the denial is known.
    pub number: u8,
    pub line: u32,
    pub address: u32,
}

/// A reply; a denial is one too, and has the same form.
#[derive(Clone, Copy)]
pub enum Reply {
    Loaded,
    Started,
    Set,
    Ran(Counts),
    /// A register's number and its word.
    Shown(u8, u32),
    Denied(Denied),
}
