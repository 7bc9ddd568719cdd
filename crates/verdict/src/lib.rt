// What a gate decides of one slot: the verify price between depths, and whether the slot pays. It has no entry points: what it does
// leans on its caller.
#![tactic(auto)]

pub mod inner;
