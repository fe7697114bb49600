// The specification as definitions. There is no code here: see specs/.
#![tactic(auto)]
