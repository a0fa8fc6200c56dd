//! The microprogram at work: one cycle of the chip, on a pile and as functions of values, and how the rows lead to the
//! end of a path.

#![tactic(auto)]

pub mod bounds;
pub mod chip;
pub mod chip_cycle;
pub mod cycle;
mod faults;
mod operands;
mod sequencing;
