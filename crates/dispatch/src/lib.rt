//! A cycle by its row: code for each listed row, with the row's fields folded in.

#![tactic(auto)]

pub mod by_row;
