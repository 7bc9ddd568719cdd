// That no second outcome meets a contract, for each entry point, in proofs/. There is no code here.
#![tactic(auto)]
