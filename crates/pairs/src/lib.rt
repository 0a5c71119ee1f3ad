// The plain ordered map is a definition; it stands in specs/, and there is no code here.
#![tactic(auto)]
