// The frame list, of any tables.
#![tactic(auto)]

pub mod frame;
