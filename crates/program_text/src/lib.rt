// The listing that a saved program means, in the bracket form.
#![tactic(auto)]

pub mod program;
mod rows;
mod statements;
