//! Three layers: split, window and delay, over any memories.

#![tactic(auto)]

pub mod delay;
pub mod split;
pub mod window;
