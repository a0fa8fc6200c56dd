//! What the instruction book and the rows both speak of: registers, words and their fields, the operation box, faults
//! and their codes, the ledger, and the rules of addresses and interrupts.

#![tactic(auto)]

pub mod address;
pub mod bits;
pub mod fault;
pub mod interrupt;
pub mod ledger;
pub mod operation;
pub mod registers;
pub mod word;
pub mod words;
