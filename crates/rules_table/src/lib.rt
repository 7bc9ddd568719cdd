// The rules' table of worked examples, P1 to P12: its rows are in specs/, and one theorem in proofs/ says that all of them hold. There are no
// functions here.
#![tactic(auto)]
