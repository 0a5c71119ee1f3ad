// Theorems of the flash store stand in specs/; there is no code here.
#![tactic(auto)]
