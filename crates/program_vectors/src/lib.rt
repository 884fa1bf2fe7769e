// Outside vectors of saved programs: tables in specs/ that the checker computes with the definition. There is no code here.
#![tactic(auto)]
