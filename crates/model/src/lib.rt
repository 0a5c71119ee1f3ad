// Mount, prepare and batch as definitions stand in specs/; there is no code here.
#![tactic(auto)]
