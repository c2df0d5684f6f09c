// When each refusal applies to a call, and which is answered. There is no code here: the definitions and theorems stand in specs/.
#![tactic(auto)]
