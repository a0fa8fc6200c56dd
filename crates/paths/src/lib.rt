//! That each step of the instruction book is a path of rows.

#![tactic(auto)]

pub mod path;
