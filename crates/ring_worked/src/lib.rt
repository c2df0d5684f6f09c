// Worked rings. There is no code here.
#![tactic(auto)]
