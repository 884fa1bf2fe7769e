// The questions that a user asks of tables, under the original's names where it has one.
// On tables that a build wrote their answers are the graph's: laws in specs/.
// Kept: functions that hand on, and no `pub use`: here the original's names stand with their contracts, and each is
// refused when it is wrong (must-fail).
#![tactic(auto)]

pub mod entry;
pub mod frame;
pub mod statement;
pub mod successors;
