// A graph's lists written into its tables.
#![tactic(auto)]

pub mod edge_count;
pub mod final_lists;
pub mod growing;
pub mod predecessors;
pub mod readable;
pub mod source;
pub mod store;
pub mod write_graph;
