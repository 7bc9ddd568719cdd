// What the survival chains of a batch give at each depth, for callers that have judged them.
#![tactic(auto)]

pub mod inner;
