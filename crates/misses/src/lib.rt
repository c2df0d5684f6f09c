// Misses and striking told from the calls since off: definitions and theorems. There is no code here: they stand in specs/.
#![tactic(auto)]
