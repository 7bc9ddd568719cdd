// Laws of the bridged price mode over a table and over a gate, in proofs/. There is no code here.
#![tactic(auto)]
