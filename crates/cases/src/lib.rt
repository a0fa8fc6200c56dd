//! Cases: jobs, and the replies that the rules give them.

#![tactic(auto)]

pub mod case;
pub mod tally;
