// A graph that came from elsewhere, compared with the one due: any length, piece by piece, in a state of fixed size.
#![tactic(auto)]

pub mod compare;
pub mod judge;
