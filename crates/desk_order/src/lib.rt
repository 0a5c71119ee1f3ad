// The order of service is definitions and theorems in specs/; there is no code here.
#![tactic(auto)]
