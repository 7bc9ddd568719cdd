// Laws of the lines of the series, in proofs/: a mean and a share are rounded to the nearest, no share of a part passes 100%, no line is longer than
// the room that is made for one, and lines as they are printed. There is no code here.
#![tactic(auto)]
