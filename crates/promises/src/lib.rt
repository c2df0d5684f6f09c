// What is promised, in one file: specs/Promises.antt. There is no code here.
#![tactic(auto)]
