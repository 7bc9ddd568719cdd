// Laws of the lines that the program prints, in proofs/: the longest fits the room that is made for it, and worked examples. There is no code here.
#![tactic(auto)]
