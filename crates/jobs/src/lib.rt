//! Jobs: what their lines do, and what they are answered.

#![tactic(auto)]

pub mod fault;
pub mod job;
pub mod limits;
pub mod station;
mod text_lines;
pub mod whole;
