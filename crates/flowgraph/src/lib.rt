// The functions that a C or Rust program calls, from an archive: thin ones over `wiring`, `checking` and `questions`.
// Each returns 0 or document 01's number, and writes the rest of the answer into a lent array.
// Kept: a function for each question and build, though they are of one shape: C calls by name, and has no types for it.
#![tactic(auto)]

pub mod build;
pub mod check;
pub mod entry;
pub mod frame;
pub mod statement;
pub mod successors;
