//! The pile that jobs run on.

#![tactic(auto)]

pub mod pile;
#[cfg(test)]
mod tests;
