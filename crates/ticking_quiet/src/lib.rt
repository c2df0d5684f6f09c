// Many ticks, and which of them a host has to be awake for: definitions and theorems. There is no code here: they stand in specs/.
#![tactic(auto)]
