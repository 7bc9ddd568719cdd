// Laws of chains, expected values and the best depth, in proofs/. There is no code here.
#![tactic(auto)]
