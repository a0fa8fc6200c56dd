//! What a row of the microprogram is, and the 1,024 rows.

#![tactic(auto)]

pub mod row;
pub mod rows;
