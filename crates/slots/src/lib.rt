// Slots of the sequences' chains, as both gates weigh them. It has no entry points: what it does leans on its caller.
#![tactic(auto)]

pub mod inner;
