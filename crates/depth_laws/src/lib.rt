// Laws of what plans are weighed by, in proofs/: goodput is never a NaN in the domain, and the depth that the Rust's loop ends
// with is the rules' best depth. There is no code here.
#![tactic(auto)]
