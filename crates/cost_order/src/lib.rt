// The rows of a cost table, put in order.
#![tactic(auto)]

pub mod inner;
