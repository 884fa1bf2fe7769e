// The graph's tables: what their entries say, and small readings of them.
#![tactic(auto)]

pub mod calls;
pub mod counts;
pub mod graphs;
pub mod lists;
pub mod nodes;
pub mod readable;
