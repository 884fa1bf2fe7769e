// Lists in lent slices, for the frame question.
#![tactic(auto)]

pub mod slices;
