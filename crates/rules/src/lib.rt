// Document 01, whose rules docs/RULES.md tells, as definitions: they are in specs/, and there is no code here.
#![tactic(auto)]
