// The reader: a text in bracket form, or a saved program, to the records of the listing that it means.
#![tactic(auto)]

pub mod branch;
mod file_rows;
mod fill;
mod judge;
pub mod listing;
mod machine;
mod operands;
mod rows;
pub mod tables;
