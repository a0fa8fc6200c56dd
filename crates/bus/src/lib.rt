//! What a memory promises: requests and answers, the trait with its meaning, and waiting a request out.

#![tactic(auto)]

pub mod memory;
pub mod request;
pub mod settle;
