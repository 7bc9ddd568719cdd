// The curve of a trace bank, and values put into a lent buffer.
#![tactic(auto)]

pub mod inner;
