// The definition of a saved program as a listing; there is no code here.
#![tactic(auto)]
