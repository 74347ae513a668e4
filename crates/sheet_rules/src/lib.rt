// Request fourteen, the morning sheet, as definitions: they are in specs/, and there is no code here.
#![tactic(auto)]
