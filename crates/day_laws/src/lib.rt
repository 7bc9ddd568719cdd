// What lines of a day file ask for, by worked examples in proofs/. There is no code here.
#![tactic(auto)]
