// Laws of both gates and of the verify price, in proofs/. There is no code here.
#![tactic(auto)]
