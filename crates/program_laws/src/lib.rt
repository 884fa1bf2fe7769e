// What is proved of the definition of a saved program stands in specs/; there is no code here.
#![tactic(auto)]
