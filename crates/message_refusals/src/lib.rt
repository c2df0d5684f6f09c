// When each refusal applies to a call on both parts, which is answered, and what it leaves. There is no code here: definitions and theorems stand in specs/.
#![tactic(auto)]
