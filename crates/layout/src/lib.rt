// Each number of the layout once: columns of the tables, numbers of the opening words, limits; why something is
// refused; and what every table asks for: a count as an index, entries zeroed.
#![tactic(auto)]

pub mod columns;
pub mod fronts;
pub mod limits;
pub mod refusals;
pub mod widths;
pub mod words;
pub mod zeroing;
