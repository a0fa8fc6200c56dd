//! Three memories: RAM, ROM and scratch, and where they may stand.

#![tactic(auto)]

pub mod borrowed;
pub mod placement;
pub mod ram;
mod region;
pub mod rom;
pub mod scratch;
