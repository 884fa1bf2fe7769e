// What is proved of the definition of the flow graph stands in specs/; there is no code here.
#![tactic(auto)]
