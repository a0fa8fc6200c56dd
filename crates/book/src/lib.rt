//! The instruction book: the machine that knows instructions and no rows.

#![tactic(auto)]

pub mod cases;
pub mod length;
