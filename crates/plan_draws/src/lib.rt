// The rounds that a plan draws, for a caller that has judged what it is asked with.
#![tactic(auto)]

pub mod draws;
