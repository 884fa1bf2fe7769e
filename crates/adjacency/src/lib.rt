// A node's successors and predecessors, and a line's entry, of any tables.
#![tactic(auto)]

pub mod entry;
pub mod successors;
