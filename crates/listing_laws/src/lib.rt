// What is proved of the definition of a listing stands in specs/; there is no code here.
#![tactic(auto)]
