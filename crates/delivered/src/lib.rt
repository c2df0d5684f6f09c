// What is proved of the station's rules, of the calls as C has them. There is no code here: the definitions and theorems stand in specs/.
#![tactic(auto)]
