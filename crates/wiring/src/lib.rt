// The wiring: the records of a listing to its graph.
#![tactic(auto)]

pub mod build;
pub mod by_rows;
pub mod closing;
pub mod entries;
pub mod falls;
pub mod fill_rows;
pub mod fors;
pub mod frames;
pub mod jumps;
pub mod leads;
pub mod line_pass;
pub mod list_of;
pub mod nexts;
pub mod prepare;
pub mod reading;
pub mod return_targets;
pub mod room;
pub mod skip_lists;
pub mod stacks;
pub mod wire;
