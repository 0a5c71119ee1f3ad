// That the survey of a pool is the model's question 5 stands in specs/; there is no code here.
#![tactic(auto)]
