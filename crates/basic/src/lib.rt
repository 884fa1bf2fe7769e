// A saved program: which bytes of a line count, the statements among them, the verdict, and the rows of the listing
// that it means.
#![tactic(auto)]

pub mod actions;
mod bodies;
mod codes;
pub mod cover;
mod covered;
pub mod cursors;
pub mod found;
mod items;
pub mod judge;
mod line;
mod lines;
mod names;
mod numbers;
pub mod rows;
pub mod sources;
