// That a batch run by the code leaves what the model leaves; theorems stand in specs/, and there is no code here.
#![tactic(auto)]
