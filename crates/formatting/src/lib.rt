// Bytes, numbers and rows, put into a lent part.
#![tactic(auto)]

pub mod page;
mod parts;
