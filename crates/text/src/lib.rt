//! Lines and replies of a job: reading the one, writing the other.

#![tactic(auto)]

pub mod digit;
pub mod fault;
pub mod form;
pub mod order;
pub mod reading;
pub mod reply;
pub mod writing;
