// The tree over a table of nodes is a definition; it stands in specs/, and there is no code here yet.
#![tactic(auto)]
