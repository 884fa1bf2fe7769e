// A graph that came from elsewhere, checked beside its listing:
// the routine over two texts, and how a program ends its comparison.
#![tactic(auto)]

pub mod check;
pub mod verdict;
