// The frames that messages go in, and the confirmations that cyclic frames carry. There is no code here: definitions and theorems stand in specs/.
#![tactic(auto)]
