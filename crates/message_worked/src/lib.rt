// Worked rings of stations with messages. There is no code here.
#![tactic(auto)]
