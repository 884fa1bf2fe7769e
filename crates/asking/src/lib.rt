// A text with a listing and questions: the graph built, the questions answered.
#![tactic(auto)]

pub mod ask;
