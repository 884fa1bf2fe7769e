// The answers of `build`, of the questions and of the check as numbers:
// 0 or document 01's number, and the rest in a lent array.
#![tactic(auto)]

pub mod build;
pub mod question;
