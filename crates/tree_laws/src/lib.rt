// That the tree is a plain ordered map is a theorem; it stands in specs/, and there is no code here.
#![tactic(auto)]
