#![tactic(auto)]

// Facts that every layer shares stand in specs/; there is no code here.
