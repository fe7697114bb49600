// What follows from the definitions. There is no code here: see specs/.
#![tactic(auto)]
