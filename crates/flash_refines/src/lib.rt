// That the flash code is the store: allocation, what requests write, what is read back, the checkpoint. The theorems stand in specs/; there is no code here.
#![tactic(auto)]
