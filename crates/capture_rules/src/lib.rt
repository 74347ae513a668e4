// Request six, capture time, as definitions: they are in specs/, and there is no code here.
#![tactic(auto)]
