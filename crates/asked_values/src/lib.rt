// 15: the values of what a plan is lent, for `asking`, which judges the sizes and the lengths before.
#![tactic(auto)]

pub mod inner;
