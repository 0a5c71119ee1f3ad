// That the mount in code is the model's: its checkpoint, its rows, which pools open and which are refused. The theorems stand in specs/; there is no code here.
#![tactic(auto)]
