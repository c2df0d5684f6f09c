// The rules of messages, and what is proved of them. There is no code here: definitions and theorems stand in specs/.
#![tactic(auto)]
