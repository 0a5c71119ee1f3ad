// That a command that the code runs is the model's: its node requests, its answer and its charge. The theorems stand in specs/; there is no code here.
#![tactic(auto)]
