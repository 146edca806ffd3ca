// Laws alone, for the proofs of the crates above: no function and no type.
#![tactic(auto)]
