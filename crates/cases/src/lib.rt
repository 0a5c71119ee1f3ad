// Worked cases of the definitions stand in specs/; there is no code here.
#![tactic(auto)]
