// Laws of the whole numbers that the proofs cite. There is no code here: see specs/.
#![tactic(auto)]
