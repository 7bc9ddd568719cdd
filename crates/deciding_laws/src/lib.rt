// Laws of what is decided, in proofs/: the decision by the loop's depth is the one by the rules' best depth. There is no code here.
#![tactic(auto)]
