// The ring of full stations: definitions and theorems. There is no code here: they stand in specs/.
#![tactic(auto)]
