//! The core over any bus: its calls, each with the promise.

#![tactic(auto)]

pub mod call;
mod counts;
pub mod cpu;
pub mod decided;
pub mod denial;
pub mod limits;
pub mod perform;
pub mod processor;
pub mod promise;
pub mod report;
