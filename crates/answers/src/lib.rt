// Questions in bracket form, answered row by row from any tables.
#![tactic(auto)]

mod answers;
pub mod asked;
mod print;
pub mod text;
mod words;
