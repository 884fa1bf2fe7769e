// The words of a row: opening words, numbers, names, and what the arguments of an opening word must be.
#![tactic(auto)]

pub mod arguments;
pub mod names;
pub mod numbers;
pub mod scan;
pub mod tiers;
pub mod words;
