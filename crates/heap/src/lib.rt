// An array heap of candidates, each of one sequence. It has no entry points: what it does leans on its caller.
#![tactic(auto)]

pub mod inner;
