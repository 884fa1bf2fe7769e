// The definition of the flow graph and its cases stand in specs/; there is no code here.
#![tactic(auto)]
