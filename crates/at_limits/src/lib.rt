// What programs call: routines that hold the tables themselves, each as long as the limits ask for.
// None of the three libraries calls them, since the tables stand on the caller's stack.
#![tactic(auto)]

pub mod lent;
pub mod list;
