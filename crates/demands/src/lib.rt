// The demands are theorems; they stand in specs/, and there is no code here.
#![tactic(auto)]
