//! What a core reports.

/// The counts since power-up, and the place: the unfrozen cycles since the last boundary or power-up.
#[derive(Clone, Copy, Default, PartialEq, Eq)]
pub struct Report {
    pub frozen: u64,
    pub boundaries: u64,
    pub place: u64,
    pub cycles: u64,
}

/// One cycle: whether it was frozen, and the report after it.
#[derive(Clone, Copy, PartialEq, Eq)]
pub struct Clocked {
    pub frozen: bool,
    pub report: Report,
}
