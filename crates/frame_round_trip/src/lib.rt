// Theorems about reading and writing frames. There is no code here: they stand in specs/.
#![tactic(auto)]
