// The printed graph, as the program `flowlist` writes it.
#![tactic(auto)]

pub mod list;
pub mod print;
pub mod print_nodes;
