// What each pass of the wiring computes, with its laws, stands in specs/; of the code only what no table is needed for.
#![tactic(auto)]

pub mod moves;
pub mod spans;
