// Where RETURNs go back to: sets of nodes, walks through regions, rows of bits that are closed.
#![tactic(auto)]

pub mod by_rows;
pub mod clearing;
pub mod closure;
pub mod lists;
pub mod readable;
pub mod regions;
pub mod return_sets;
pub mod return_totals;
pub mod sets;
pub mod spans;
pub mod walk;
