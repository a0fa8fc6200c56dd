//! The limit of a job.

/// The most bytes of a job.
pub const MAX_JOB: usize = 65_536;
