// A node's statement and the statement at a path, of any tables.
#![tactic(auto)]

pub mod statement;
