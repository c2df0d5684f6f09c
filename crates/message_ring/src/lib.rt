// Demand 3 of a ring of stations with messages. There is no code here: definitions and theorems stand in specs/.
#![tactic(auto)]
