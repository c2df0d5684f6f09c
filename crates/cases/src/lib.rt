// The paper's marked cases. There is no code here: the table stands in specs/.
#![tactic(auto)]
