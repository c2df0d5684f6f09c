// Laws that several crates' proofs cite. There is no code here: the laws stand in specs/.
#![tactic(auto)]
