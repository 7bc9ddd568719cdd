// What each depth is worth and costs, and the depth of the best goodput, for callers that have judged what they were lent.
#![tactic(auto)]

pub mod inner;
